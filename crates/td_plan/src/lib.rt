//! Plans: the lines that rebuild a whole transition, from a tracker to its last dep-wait.
//!
//! Start at `Plan::of`, which finds the rows that are due and the order of their sources;
//! `Plan::text` writes the lines. `specs/Plan.antt` says what they are, `specs/Due.antt` which rows
//! are due, `specs/Parts.antt` what parts and steps are, and `specs/Waits.antt` which row waits for
//! what.
//! `Steps::of` finds the steps of all affected sources, and what each of them builds on; its texts
//! are what `waves` prints by `--steps` and `--why` (`specs/Steps.antt`, `specs/Why.antt`).
//! A source takes a look-up for each alternative of its build, and a step for each source and each
//! package that an alternative names; no clause says that.
//! Several threads share many sources: what each of them asks for, what is to be done with its
//! rows, and its lines. The plan and its text are those of one thread.
#![tactic(auto)]

mod affected;
mod asks;
mod bases;
mod commands;
mod comment_laws;
mod comments;
mod due;
mod inputs;
mod laws;
mod movers;
mod numbers;
mod ordering;
mod part_laws;
mod parts;
mod plan;
mod plan_laws;
mod providers;
mod reasons;
mod relations;
mod row_laws;
mod search;
mod sound_laws;
mod source_text;
mod steps;
mod strays;
mod turning;
mod versions;
mod waits;
mod words;

pub use comment_laws::{steps_have_comments, waits_have_lines};
pub use inputs::Inputs;
pub use laws::{
    plan_comments_are_skipped, plan_lines_are_read, plan_relations_are_read, plans_are_read,
};
pub use part_laws::{
    bases_have_packages, due_sources_are_all, firsts_are_least, parts_are_mutual, placings_are_one,
    plans_are_one_text, steps_are_one_text, wanted_rows_are_told_once, ways_lead_down,
};
pub use parts::{Parts, parts_of};
pub use plan::Plan;
pub use plan_laws::{
    due_rows_are_waited_for, lines_are_in_order, lines_are_there, plans_are_taken_whole,
    plans_are_undone, rebuilds_are_of_due_sources, rows_are_held, rows_are_released,
    rows_are_told_once, sources_build_somewhere, waits_are_all, waits_are_for_first_packages,
    waits_are_read_again, waits_lead_down,
};
pub use row_laws::{
    due_rows_are_exact, left_rows_are_explained, numbers_are_least, numbers_run_out_over_rows,
};
pub use sound_laws::{
    affected_rows_are_enough, read_archives_can_be_planned, versions_of_archives_are_read,
};
pub use steps::Steps;
pub use words::{WordFault, Words};
