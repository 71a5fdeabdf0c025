// Document 01's job file and program: a job file read, and what is printed for it.
#![tactic(auto)]

mod job;
pub mod print;
mod put;
mod texts;
