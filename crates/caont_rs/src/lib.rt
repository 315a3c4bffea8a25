//! Convergent dispersal by CAONT-RS (Li, Qin and Lee, CDStore, USENIX ATC 2015): a secret becomes n shares by itself
//! alone, any k of them give it back, and they show whether it is whole.
//!
//! The secret is filled up with zero bytes to X, whose hash h (SHA-256) is the key of a mask (AES-256 over counters).
//! Y is X under the mask, and t is h plus the hash of Y. The package, Y followed by t, is cut into k equal pieces, which
//! a systematic Reed-Solomon code disperses into n shares. Nothing is random and no key is kept, so equal secrets have
//! equal shares, and a store can keep them once.
#![tactic(auto)]

pub mod laws;
mod names;
mod opening;
mod sealing;

pub use aes256::{Key, block, inv, mask, mul, mul_into, pow};
pub use names::{name_package, name_share, tag_of};
pub use opening::{RecoverErr, recover};
pub use reed_solomon::{
    Bytes, CloudNo, Coder, Ends, Fp, NoMemory, Shape, are_choice, is_path, sha256, share_len,
};
pub use sealing::disperse;
