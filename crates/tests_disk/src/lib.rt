//! Tests of the disk's layers: journals in two halves, the containers that a log keeps, and the outside as the system has it.
#![tactic(auto)]

#[cfg(test)]
mod checkpoint_writing_cases;
#[cfg(test)]
mod container_log_cases;
#[cfg(test)]
mod folder_cases;
#[cfg(test)]
mod ground;
#[cfg(test)]
mod socket_cases;
#[cfg(test)]
mod stops;
#[cfg(test)]
mod written;
