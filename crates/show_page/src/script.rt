//! The script of a page, which makes the page from its list.

mod arrows;
mod begin;
mod links;
mod list;
mod moves;
mod page;
mod reasons;
mod select;
mod show;
mod sift;
mod state;
mod ways;

/// The script of a schedule's page. It steps through the moves, shows the state after each with its
/// reasons, and draws the arrows.
pub(crate) const MOVES_SCRIPT: [&str; 11] = [
    list::LIST,
    moves::MOVES,
    page::PAGE,
    state::STATE,
    links::LINKS,
    reasons::REASONS,
    show::SHOW,
    select::SELECT,
    sift::SIFT,
    arrows::ARROWS,
    begin::BEGIN,
];

/// The script of a log's page.
pub(crate) const WAYS_SCRIPT: [&str; 2] = [list::LIST, ways::WAYS];
