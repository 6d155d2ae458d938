//! A server's records, its gate, its effects and its crashes, by values that were worked out apart.

mod crashes;
mod effects;
mod gates;
mod heirs;
mod piece;
mod records;
