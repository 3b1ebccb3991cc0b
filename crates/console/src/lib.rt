// What a line of a session or of a drive does.
//
// The tables are lent, the endpoint and the controller are values, and what is to be written is put on a page (crate `page`). `serve` does what a
// line says, by the calls of `calls` and, for what only shows or forges, by `bench`.
// The four tables are lent one by one: a struct of four `&mut` would ask every contract for a clause on each of its references, and is no plainer.
#![tactic(auto)]

pub mod serve;
