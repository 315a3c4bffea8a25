//! What the words of a command ask for.

use session::{CloudNo, Clouds, Shape, UserId, UserRooms, Version};

/// What the words ask for.
#[derive(Drop)]
pub enum AskedCommand<'a> {
    /// The script in the source, over empty clouds in the directory.
    Replay { directory: &'a str },
    /// A version of a file from the disks of k clouds or more.
    Read(ReadWords<'a>),
    /// A cloud's store, for connections.
    Serve(ServeWords<'a>),
    /// A file for n clouds behind addresses.
    Backup(BackupWords<'a>),
    /// A version of a file from k clouds or more behind addresses.
    Restore(RestoreWords<'a>),
    /// A version of a file out of n clouds behind addresses.
    Delete(DeleteWords<'a>),
    /// A file for n clouds behind addresses, which is kept in the directory until each has it.
    Spool(SpoolWords<'a>),
    /// What is kept in the directory, for n clouds behind addresses.
    Resume(ResumeWords<'a>),
    /// A certificate of a cloud's store.
    Audit(CloudWords<'a>),
    /// The certificate in the source, by a cloud's store.
    Check(CloudWords<'a>),
    /// What is alive of a cloud's store, in a fresh place.
    Reclaim(CloudWords<'a>),
    /// A cloud's store of the earlier format, in the present one.
    Migrate(MigrateWords<'a>),
    /// A session that a number gives.
    Generate(GenerateWords<'a>),
}

/// `read DIR N K USER PATH VERSION CLOUDS`.
#[derive(Drop)]
pub struct ReadWords<'a> {
    /// Where the clouds lie: any word.
    pub directory: &'a str,
    /// The shape of the store.
    pub shape: Shape,
    /// Whose file it is.
    pub user: UserId,
    /// The file's path: the word's own bytes, 1 to 1,024 of them, none zero.
    pub path: &'a [u8],
    /// The version.
    pub version: Version,
    /// The clouds that are read: k of them below n, or more.
    pub clouds: Clouds,
}

/// `serve DIR CLOUD N K ADDR COUNT`.
#[derive(Clone, Copy)]
pub struct ServeWords<'a> {
    /// Where the cloud lies: any word.
    pub directory: &'a str,
    /// The cloud, below n.
    pub cloud: CloudNo,
    /// The shape of the store.
    pub shape: Shape,
    /// Where it listens: any word.
    pub address: &'a str,
    /// How many connections it serves, at least 1.
    pub count: u32,
}

/// `backup USER PATH VERSION ADDR..`.
#[derive(Clone, Copy)]
pub struct BackupWords<'a> {
    /// Whose file it is.
    pub user: UserId,
    /// The file's path: the word's own bytes, 1 to 1,024 of them, none zero.
    pub path: &'a [u8],
    /// The version.
    pub version: Version,
    /// Where the n clouds listen, in their order: 3 to 16 words.
    pub addresses: &'a [String],
}

/// `restore USER PATH VERSION ADDR..`.
#[derive(Clone, Copy)]
pub struct RestoreWords<'a> {
    /// Whose file it is.
    pub user: UserId,
    /// The file's path: the word's own bytes, 1 to 1,024 of them, none zero.
    pub path: &'a [u8],
    /// The version.
    pub version: Version,
    /// Where k clouds or more listen, in the order of the clouds: 2 to 16 words.
    pub addresses: &'a [String],
}

/// `delete USER PATH VERSION ADDR..`.
#[derive(Clone, Copy)]
pub struct DeleteWords<'a> {
    /// Whose file it is.
    pub user: UserId,
    /// The file's path: the word's own bytes, 1 to 1,024 of them, none zero.
    pub path: &'a [u8],
    /// The version.
    pub version: Version,
    /// Where the n clouds listen, in their order: 3 to 16 words.
    pub addresses: &'a [String],
}

/// `spool DIR USER PATH VERSION ADDR..`.
#[derive(Clone, Copy)]
pub struct SpoolWords<'a> {
    /// Where the file and what is done of it are kept: any word.
    pub directory: &'a str,
    /// The words behind it, which are those of a backup.
    pub file: BackupWords<'a>,
}

/// `resume DIR ADDR..`.
#[derive(Clone, Copy)]
pub struct ResumeWords<'a> {
    /// Where a spool kept its file: any word.
    pub directory: &'a str,
    /// Where the n clouds listen, in their order: 3 to 16 words.
    pub addresses: &'a [String],
}

/// `audit DIR CLOUD N K`, `check DIR CLOUD N K` and `reclaim DIR CLOUD N K`.
#[derive(Clone, Copy)]
pub struct CloudWords<'a> {
    /// Where the cloud lies: any word.
    pub directory: &'a str,
    /// The cloud, below n.
    pub cloud: CloudNo,
    /// The shape of the store.
    pub shape: Shape,
}

/// `migrate DIR CLOUD N K USERS SHARES RECIPES OWNERS FILES`.
#[derive(Clone, Copy)]
pub struct MigrateWords<'a> {
    /// Where the cloud lies, and which one of which shape it is.
    pub place: CloudWords<'a>,
    /// The rooms that it has from then on: 1 to 256 users, who hold no more together than a cloud may.
    pub rooms: UserRooms,
}

/// `gen SEED FILES PIECES DIR`.
#[derive(Clone, Copy)]
pub struct GenerateWords<'a> {
    /// The number that gives the session.
    pub seed: u64,
    /// How many files it has, 1 to 1,000.
    pub files: u32,
    /// How many pieces a file has, 1 to 8,192, and all files 131,072 at most.
    pub pieces: u32,
    /// Where the clouds lie: any word.
    pub directory: &'a str,
}
