//! Tests of `voucher_chain` and `voucher_tool`, against vouchers, breaks and texts from outside.
#![tactic(auto)]

#[cfg(test)]
mod asking_tests;
#[cfg(test)]
mod break_rows;
#[cfg(test)]
mod break_tests;
#[cfg(test)]
mod copy_tests;
#[cfg(test)]
mod credential_tests;
#[cfg(test)]
mod extend_tests;
#[cfg(test)]
mod given;
#[cfg(test)]
mod link_tests;
#[cfg(test)]
mod reading_tests;
#[cfg(test)]
mod tool_tests;
#[cfg(test)]
mod voucher_rows;
#[cfg(test)]
mod writing_tests;
