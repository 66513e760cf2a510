//! The balance of every history of calls on a book: no kWh and no hundredth of a dram is lost or invented, and no issue both bills and carries in a zone.
#![tactic(auto)]

mod law;

pub use law::{
    capacities_and_classes_stay, debts_are_told, drafts_are_current_while_nothing_is_posted,
    entries_are_counted, every_run_balances, history_leads_to_one_group, issues_share_by_the_rule,
    issues_write_what_is_drawn, phases_follow_the_calendar, sample_tells,
};
