//! Tests of requests to one server, and of the store below it, stopped and opened again.
#![tactic(auto)]

#[cfg(test)]
mod cloud;
#[cfg(test)]
mod cloud_store_stops;
#[cfg(test)]
mod commands;
#[cfg(test)]
mod greatest;
#[cfg(test)]
mod reads;
#[cfg(test)]
mod replies;
#[cfg(test)]
mod requests;
#[cfg(test)]
mod walk;
