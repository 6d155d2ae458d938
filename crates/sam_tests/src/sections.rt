//! The sections of a rasp, of which no clause says that they are few, and its stretches of runes and of gaps.
use sam_rasp::{Rasp, RaspFault, Run};
use sam_runes::MAX_RUNES;
use sam_test_support::lent;

/// A change of a rasp by the call of this name, which it makes, or a look at it, with the answer.
#[derive(Clone, Copy)]
enum Step<'a> {
    Grow(u32, u32),
    Data(u32, &'a [char]),
    Cut(u32, u32),
    TypeIn(u32, &'a [char]),
    Replace(u32, u32, &'a [char]),
    LoadInBlocks,
    CutInBlocks,
    Sections(usize),
    Hole(u32, u32, Option<(u32, u32)>),
    RunAt(u32, Option<Run>),
}

/// Makes a change. A look changes nothing.
fn make(rasp: &mut Rasp, step: Step<'_>) -> Result<(), RaspFault> {
    match step {
        Step::Grow(p, n) => rasp.grow(p, n),
        Step::Data(p, runes) => rasp.data(p, runes),
        Step::Cut(p, n) => rasp.cut(p, n),
        Step::TypeIn(p, runes) => rasp.type_in(p, runes),
        Step::Replace(p, q, runes) => rasp.replace(p, q, runes),
        Step::LoadInBlocks => load_in_blocks(rasp),
        Step::CutInBlocks => cut_in_blocks(rasp),
        _ => Ok(()),
    }
}

fn hole(rasp: &Rasp, p: u32, q: u32) -> Option<(u32, u32)> {
    if p <= q && q <= rasp.len() {
        rasp.first_hole(p, q)
    } else {
        None
    }
}

/// Whether a look has its answer.
fn is_right(rasp: &Rasp, step: Step<'_>) -> bool {
    match step {
        Step::Sections(answer) => rasp.sections() == answer,
        Step::Hole(p, q, answer) => hole(rasp, p, q) == answer,
        Step::RunAt(p, answer) => rasp.run_at(p) == answer,
        _ => true,
    }
}

/// The number of the first step, counted from 0, that isn't made, or that the rasp answers otherwise.
fn first_wrong(rasp: &mut Rasp, steps: &[Step<'_>]) -> Option<usize> {
    for (at, step) in steps.iter().enumerate() {
        if make(rasp, *step) != Ok(()) || !is_right(rasp, *step) {
            return Some(at);
        }
    }
    None
}

/// How many blocks of six places the rasp of `load_in_blocks` has.
const BLOCKS: u32 = 1_000;

/// Loads an `a` at place 2 of each block of six gaps, in a scattered order.
fn load_in_blocks(rasp: &mut Rasp) -> Result<(), RaspFault> {
    rasp.grow(0, BLOCKS.saturating_mul(6))?;
    for turn in 0..BLOCKS {
        let block = turn.wrapping_mul(377).checked_rem(BLOCKS).unwrap_or(0);
        rasp.data(block.saturating_mul(6).saturating_add(2), &['a'])?;
    }
    Ok(())
}

/// The block whose turn it is to be cut: each once, in a scattered order.
fn block_of(turn: u32) -> u32 {
    turn.wrapping_mul(619).checked_rem(BLOCKS).unwrap_or(0)
}

/// How many of the blocks before this one had their turn before.
fn shorter_before(turn: u32, block: u32) -> u32 {
    let mut before = 0u32;
    for earlier in 0..turn {
        before = before.saturating_add(u32::from(block_of(earlier) < block));
    }
    before
}

/// Cuts the gap after the `a` out of each block, in a scattered order.
fn cut_in_blocks(rasp: &mut Rasp) -> Result<(), RaspFault> {
    for turn in 0..BLOCKS {
        let block = block_of(turn);
        let place = block.saturating_mul(6).saturating_add(3);
        rasp.cut(place.saturating_sub(shorter_before(turn, block)), 1)?;
    }
    Ok(())
}

const RUNE_AT_1: Run = Run {
    loaded: true,
    start: 1,
    len: 1,
};

const TWO_RUNES: Run = Run {
    loaded: true,
    start: 1,
    len: 2,
};

const GAP_AT_0: Run = Run {
    loaded: false,
    start: 0,
    len: 1,
};

const SMALL: [Step<'static>; 12] = [
    Step::Sections(0),
    Step::Grow(0, 5),
    Step::Data(2, &['c', 'd']),
    Step::Cut(1, 2),
    Step::Hole(1, 3, Some((2, 3))),
    Step::RunAt(1, Some(RUNE_AT_1)),
    Step::TypeIn(1, &['x']),
    Step::RunAt(0, Some(GAP_AT_0)),
    Step::RunAt(2, Some(TWO_RUNES)),
    Step::RunAt(4, None),
    Step::Hole(0, 4, Some((0, 1))),
    Step::Hole(1, 3, None),
];

const FEW: [Step<'static>; 10] = [
    Step::Grow(0, MAX_RUNES),
    Step::Sections(1),
    Step::Data(0, &['m'; 512]),
    Step::Sections(2),
    Step::Data(600, &['a', 'b']),
    Step::Sections(4),
    Step::Cut(512, 88),
    Step::Sections(3),
    Step::Cut(0, 2),
    Step::Sections(2),
];

const MANY: [Step<'static>; 10] = [
    Step::LoadInBlocks,
    Step::Sections(2_001),
    Step::CutInBlocks,
    Step::Sections(2_001),
    Step::Cut(3, 4_990),
    Step::Sections(5),
    Step::Replace(0, 10, &['m'; 600]),
    Step::Sections(2),
    Step::Cut(0, 600),
    Step::Sections(0),
];

#[test]
fn a_rasp_has_few_sections(rt: HostRuntime) {
    for steps in [SMALL.as_slice(), FEW.as_slice(), MANY.as_slice()] {
        let wrong = lent(Rasp::new(rt.alloc()), |rasp| first_wrong(rasp, steps));
        assert_eq!(rt; wrong, None);
    }
}
