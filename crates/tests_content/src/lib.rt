//! Tests of the cipher, digests, dispersal, cuts and recipes; and of the tree of slots.
#![tactic(auto)]

#[cfg(test)]
mod aes256_cases;
#[cfg(test)]
mod caont_rs_cases;
#[cfg(test)]
mod hash_lanes_cases;
#[cfg(test)]
mod rabin_chunker_cases;
#[cfg(test)]
mod recipe_cases;
#[cfg(test)]
mod slot_tree_cases;
