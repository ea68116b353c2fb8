//! What no sheet of cases can show (the program cases answers these): the rows that buildozer was worked out by, and what both
//! programs do where a reader, a writer or a file fails. Tables, and one run for each row.
#![tactic(auto)]

#[cfg(test)]
mod files;
#[cfg(test)]
mod ports;
#[cfg(test)]
mod run;
#[cfg(test)]
mod worked;
