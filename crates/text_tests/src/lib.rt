//! Tests of what is read and written as text, one module for each tested crate: `handheld` of `handheld_http`, `imports` of
//! `register_import`, `view_lines` of `view_texts`, `reports` of `semiannual_report`, `filings` of `report_filing`, `table` of
//! `report_table`, `words` of `command_words`.
#![tactic(auto)]

#[cfg(test)]
mod filings;
#[cfg(test)]
mod handheld;
#[cfg(test)]
mod imports;
#[cfg(test)]
mod reports;
#[cfg(test)]
mod shared;
#[cfg(test)]
mod table;
#[cfg(test)]
mod view_lines;
#[cfg(test)]
mod words;
