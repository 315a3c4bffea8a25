//! A session over clouds: what each line of a script does, what is answered to it, and what follows of a whole session. It is definitions
//! and laws: there is nothing to run.
#![tactic(auto)]

mod laws;

pub use laws::{
    law_of_acknowledged, law_of_armings, law_of_counts, law_of_faults, law_of_kept_rooms,
    law_of_last_lists, law_of_moments, law_of_own_commands, law_of_own_replies, law_of_parts,
};
pub use local_link::{Fate, LocalLink, OpenErr, Servers, damage_of};
pub use rebuild::{
    Entries, Job, KEY_LIMIT, LaneNews, RebuildErr, Rebuilt, Skip, SkipWhy, Skips, rebuild,
};
pub use session::{
    Answer, Ending, Event, Failed, Line, LineErr, LineReader, News, Refusal, ScriptErr, Shelf,
    SkipWord, TargetWhy, read_line, write_ending, write_line,
};
pub use subset_restore::{Link, Lost, RestoreErr, as_refusal, restore_any};
