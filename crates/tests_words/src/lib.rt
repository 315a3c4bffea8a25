//! Tests of texts and formats: transcripts, certificates, messages, starts and the bodies of records.
#![tactic(auto)]

#[cfg(test)]
mod cd_base_cases;
#[cfg(test)]
mod certificate_cases;
#[cfg(test)]
mod first_body_cases;
#[cfg(test)]
mod journal_start_cases;
#[cfg(test)]
mod messages_cases;
#[cfg(test)]
mod pieces;
#[cfg(test)]
mod record_body_cases;
#[cfg(test)]
mod transcript_cases;
