// Answers as bytes (docs/CALLS.md): each function writes from a place on and hands back the next place.
#![tactic(auto)]

// What has bytes, and the values that are there or not.
pub mod parts;
// An operation, and what shows one: stages, kinds, stations.
pub mod operations;
// Waits, rows, cells, claims, status, counters, edges and stages.
pub mod shown;
// The answers of driving calls, and what stands before a text.
pub mod replies;
