//! Laws of edits that wait: nothing typed is lost, what is typed is shown, and a file ends as on one machine. `cells` says so of the cells
//! over one rasp, `overlays` of those over all files of a terminal's end.
#![tactic(auto)]

pub mod cells;
pub mod overlays;
