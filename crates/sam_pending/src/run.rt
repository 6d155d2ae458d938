//! Stretches of cells of one sort.

ghost use Rattle.std.specs.Prelude.{◌≡◌, ◌≤◌, ◌<◌, ◌^◌, ◌∷◌, [], IfSome};
ghost use Rattle.sam_pending.specs.Cells.{by};
ghost use Rattle.sam_pending.specs.Runs.{above, held_of, run_counts, run_stands, size, head_of, tail_of, room, wait, newest_run, run_rests, reach, IsSame, is_due, is_up_to, made_run};
ghost use Rattle.sam_pending.specs.declared.run.Run.TheVariants.{Held, Typed};

/// Where runes stand in the text of those that wait.
#[derive(Clone, Copy)]
pub struct Stretch {
    /// Where they begin.
    pub start: u32,
    /// How many there are.
    pub count: u32,
}

/// A stretch of cells of one sort.
#[derive(Clone, Copy)]
pub enum Run {
    /// So many members of the rasp, and the group that removes them, if one does.
    Held(u32, Option<u32>),
    /// Runes that are not in the rasp yet, the group that put them in, and the group that removes them, if one does.
    Typed(Stretch, u32, Option<u32>),
}

/// One of the two texts that cells make.
#[derive(Clone, Copy)]
pub enum Side {
    /// The rasp.
    Below,
    /// What is shown.
    Above,
}

/// What an edit of what waits does to the rasp, and the newest group of which it may be; of any, if there is none.
#[derive(Clone, Copy)]
pub enum Deed {
    /// It takes members out.
    Removes(Option<u32>),
    /// It puts runes in.
    Inserts(Option<u32>),
}

/// Returns whether a group, or one before it, is named.
fn is_by(group: u32, named: Option<u32>) -> bool
    ensures { result ≡ by group named }
{
    match named {
        None => false,
        Some(other) => other <= group,
    }
}

/// Returns whether a group is not newer than the last one that is to come to the rasp, if there is a last one.
fn is_up_to(limit: Option<u32>, group: u32) -> bool
    ensures { result ≡ is_up_to limit group }
{
    match limit {
        None => true,
        Some(last) => group <= last,
    }
}

impl Run {
    /// Returns whether its cells count on that side.
    pub fn counts(self, side: Side) -> bool
        ensures { result ≡ run_counts side self }
    {
        match side {
            Side::Below => match self {
                Run::Held(_, _) => true,
                Run::Typed(_, _, _) => false,
            },
            Side::Above => match self {
                Run::Held(_, died) => died.is_none(),
                Run::Typed(_, _, died) => died.is_none(),
            },
        }
    }

    /// Returns how many cells it has.
    pub fn size(self) -> u32
        ensures { result ≡ size self }
    {
        match self {
            Run::Held(count, _) => count,
            Run::Typed(runes, _, _) => runes.count,
        }
    }

    /// Returns how many of its cells are shown.
    pub fn shown(self) -> u32
        ensures { result ≡ above (self ∷ []) }
    {
        if self.counts(Side::Above) {
            self.size()
        } else {
            0
        }
    }

    /// Returns how many members of the rasp it holds.
    pub fn room(self) -> u32
        ensures { result ≡ room self }
    {
        match self {
            Run::Held(count, _) => count,
            Run::Typed(_, _, _) => 0,
        }
    }

    /// Returns how many of its runes wait.
    pub fn wait(self) -> u32
        ensures { result ≡ wait self }
    {
        match self {
            Run::Held(_, _) => 0,
            Run::Typed(runes, _, _) => runes.count,
        }
    }

    /// Returns whether nothing of it waits.
    pub fn rests(self) -> bool
        ensures { result ≡ run_rests self }
    {
        match self {
            Run::Held(count, died) => match died {
                None => true,
                Some(_) => count == 0,
            },
            Run::Typed(runes, _, _) => runes.count == 0,
        }
    }

    /// Returns the newest group that it names; 0 if it names none.
    pub fn newest(self) -> u32
        ensures { result ≡ newest_run self }
    {
        match self {
            Run::Held(_, died) => died.unwrap_or(0),
            Run::Typed(_, born, died) => born.max(died.unwrap_or(0)),
        }
    }

    /// Returns whether its cells stand in the text that a request of a group comes to.
    pub fn stands_at(self, group: u32) -> bool
        ensures { result ≡ run_stands group self }
    {
        match self {
            Run::Held(_, died) => !is_by(group, died),
            Run::Typed(_, born, died) => born <= group && !is_by(group, died),
        }
    }

    /// Returns how many of so many of its cells are members of the rasp.
    pub fn held_of(self, count: u32) -> u32
        ensures { result ≡ held_of count self }
    {
        match self {
            Run::Held(_, _) => count,
            Run::Typed(_, _, _) => 0,
        }
    }

    /// Returns whether such an edit is due at it.
    pub fn is_due(self, deed: Deed) -> bool
        ensures { result ≡ is_due deed self }
    {
        match self {
            Run::Held(count, died) => match died {
                None => false,
                Some(group) => match deed {
                    Deed::Removes(limit) => count > 0 && is_up_to(limit, group),
                    Deed::Inserts(_) => false,
                },
            },
            Run::Typed(runes, born, _) => match deed {
                Deed::Removes(_) => false,
                Deed::Inserts(limit) => runes.count > 0 && is_up_to(limit, born),
            },
        }
    }

    /// Returns it as it is once the edit at it is made.
    pub fn made(self) -> Run
        ensures { result ≡ made_run self }
    {
        match self {
            Run::Held(_, _) => Run::Held(0, None),
            Run::Typed(runes, _, died) => Run::Held(runes.count, died),
        }
    }

    /// Returns its first cells, so many of them.
    pub fn head(self, at: u32) -> Run
        ensures { result ≡ head_of at self }
    {
        match self {
            Run::Held(_, died) => Run::Held(at, died),
            Run::Typed(runes, born, died) => Run::Typed(
                Stretch {
                    start: runes.start,
                    count: at,
                },
                born,
                died,
            ),
        }
    }

    /// Returns its cells after the first, so many of them.
    pub fn tail(self, at: u32) -> Run
        requires count { at ≤ size self }
        requires fits { reach self < 2 ^ 32 }
        ensures { result ≡ tail_of at self }
    {
        match self {
            Run::Held(count, died) => Run::Held(count - at, died),
            Run::Typed(runes, born, died) => Run::Typed(
                Stretch {
                    start: runes.start + at,
                    count: runes.count - at,
                },
                born,
                died,
            ),
        }
    }

    /// Returns the two as one run, where they are of one sort and stand one behind another, or where one of them is empty.
    #[tactic(auto, using(crate::proofs::JoinLaws::join_facts))]
    pub fn joined(self, next: Run) -> Option<Run>
        ensures { IfSome result (λ x. IsSame (x ∷ []) (self ∷ next ∷ [])) }
    {
        if self.size() == 0 {
            return Some(next);
        }
        if next.size() == 0 {
            return Some(self);
        }
        match self {
            Run::Held(count, died) => match next {
                Run::Held(more, other) => held_joined(count, more, died, other),
                Run::Typed(_, _, _) => None,
            },
            Run::Typed(runes, born, died) => match next {
                Run::Held(_, _) => None,
                Run::Typed(more, group, other) => {
                    if born == group && died == other {
                        typed_joined(runes, more, born, died)
                    } else {
                        None
                    }
                }
            },
        }
    }
}

/// Returns the two stretches of the rasp as one, if they are of one sort.
fn held_joined(count: u32, more: u32, died: Option<u32>, other: Option<u32>) -> Option<Run>
    ensures { IfSome result (λ x. IsSame (x ∷ []) (Held count died ∷ Held more other ∷ [])) }
{
    if died == other && more <= u32::MAX - count {
        Some(Run::Held(count + more, died))
    } else {
        None
    }
}

/// Returns the two stretches of runes that wait as one, if the one stands behind the other in the text.
fn typed_joined(runes: Stretch, more: Stretch, born: u32, died: Option<u32>) -> Option<Run>
    ensures { IfSome result (λ x. IsSame (x ∷ []) (Typed runes born died ∷ Typed more born died ∷ [])) }
{
    if runes.count > u32::MAX - runes.start || runes.start + runes.count != more.start {
        return None;
    }
    if more.count > u32::MAX - runes.count {
        return None;
    }
    let both = Stretch {
        start: runes.start,
        count: runes.count + more.count,
    };
    Some(Run::Typed(both, born, died))
}
