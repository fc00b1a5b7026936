// Tests of the public calls, as tables of cases.
#![tactic(auto)]

mod fields_tests;
mod head_tests;
