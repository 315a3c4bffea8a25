//! The laws of lists, views and replies, for the proofs of callers. The calls do nothing.

ghost use Rattle.std.specs.Prelude.{◌≡◌, ◌≢◌, ◌↔◌, ◌<◌, ℕ, List, [], ◌∷◌, ◌++◌, IsTrue, IsSome, Some, None, Ok, true, Option, All, slice_get};
ghost use Rattle.journal_start.specs.CdBase.Reading.{AreBytes};
ghost use Rattle.journal_start.specs.CdBase.ids.Tag.{Tag};
ghost use Rattle.journal_start.specs.CdBase.ids.Version.{Version};
ghost use Rattle.messages.specs.Requests.{FitsRequest};
ghost use Rattle.std.specs.List.{Contains, flat_map};
ghost use Rattle.journal_start.specs.CdBase.ids.Fp.{Fp};
ghost use Rattle.journal_start.specs.CdBase.ids.UserId.{UserId};
ghost use Rattle.journal_start.specs.CdBase.shape.Shape.{Shape};
ghost use Rattle.messages.specs.declared.request.Request.{Request};
ghost use Rattle.user_dedup.specs.declared.command.Command.{Command};
ghost use Rattle.user_dedup.specs.Cloud.{fingerprint, user_of, no_view, view_after, user_view, strings_of, held_string, without_entry, deletion, IsNamedBeside};
ghost use Rattle.user_dedup.specs.Owning.{is_among, new_strings, AreNew};
ghost use Rattle.user_dedup.specs.Pages.{key_of, entry_at, AreApart, page_of, IsPage};
ghost use Rattle.user_dedup.specs.declared.file_list.FileEntry.{FileEntry};
ghost use Rattle.user_dedup.specs.Requests.{asker, fps_of, HasRecipe, AsksOfStore, asked_at};
ghost use Rattle.user_dedup.specs.Exec.{Suits, Peer, Exec, StandsSound, items_of, served};
ghost use Rattle.messages.specs.Answering.{IsReplyTo};
ghost use Rattle.messages.specs.declared.reply.Reply.{Reply};
ghost use Rattle.user_dedup.specs.declared.view.View.{View};
ghost use Rattle.user_dedup.specs.Dedup.{answer_over, HeldAlike, IsSound, IsAddedCommand, FullRoom, TakesVersionOut};

/// A user's view is made of that user's commands alone, each in its turn.
pub fn law_of_views()
    ensures begun { (shape : Shape) (user : UserId) → user_view shape [] user ≡ no_view }
    ensures own { (shape : Shape) (list : List Command) (command : Command) (user : UserId)
        → (user_of command).0 ≡ user.0
        → user_view shape (list ++ command ∷ []) user ≡ view_after shape (user_view shape list user) command }
    // A command of one user leaves the view of every other user.
    ensures others { (shape : Shape) (list : List Command) (command : Command) (user : UserId)
        → (user_of command).0 ≢ user.0
        → user_view shape (list ++ command ∷ []) user ≡ user_view shape list user }
{}

/// A deletion takes the entry of its key, and what no entry left names.
pub fn law_of_deletions()
    ensures view { (shape : Shape) (list : List Command) (user : UserId) (key : Tag × Version)
        → user_view shape (list ++ deletion user key ∷ []) user ≡ without_entry shape key (user_view shape list user) }
    ensures gone { (shape : Shape) (key : Tag × Version) (v : View)
        → entry_at (without_entry shape key v).files key ≡ None }
    // It leaves the entries of other keys.
    ensures others { (shape : Shape) (key other : Tag × Version) (v : View) → other ≢ key
        → entry_at (without_entry shape key v).files other ≡ entry_at v.files other }
    ensures entries { (shape : Shape) (key : Tag × Version) (v : View) (entry : FileEntry)
        → Contains (without_entry shape key v).files entry ↔ (Contains v.files entry × (key_of entry ≢ key)) }
    // It takes nothing that another entry names, and nothing that its own entry doesn't name.
    ensures named { (shape : Shape) (key : Tag × Version) (v : View) (fp : Fp) → Contains v.own fp
        → IsNamedBeside shape key v.files fp → Contains (without_entry shape key v).own fp }
    ensures foreign { (shape : Shape) (key : Tag × Version) (v : View) (entry : FileEntry) (fp : Fp)
        → entry_at v.files key ≡ Some entry → ¬ (Contains (fps_of shape entry.recipe) fp)
        → Contains v.own fp → Contains (without_entry shape key v).own fp }
    // It takes all that its own entry alone names, and gives nothing.
    ensures taken { (shape : Shape) (key : Tag × Version) (v : View) (entry : FileEntry) (fp : Fp)
        → entry_at v.files key ≡ Some entry → Contains (fps_of shape entry.recipe) fp
        → ¬ (IsNamedBeside shape key v.files fp) → ¬ (Contains (without_entry shape key v).own fp) }
    ensures own { (shape : Shape) (key : Tag × Version) (v : View) (fp : Fp)
        → Contains (without_entry shape key v).own fp → Contains v.own fp }
{}

/// A version of a user's file stays, with its recipe, until a command takes it out.
pub fn law_of_versions()
    ensures { (shape : Shape) (list : List Command) (command : Command) (user : UserId) (key : Tag × Version)
        (entry : FileEntry) → ¬ (TakesVersionOut user key command)
        → entry_at (user_view shape list user).files key ≡ Some entry
        → entry_at (user_view shape (list ++ command ∷ []) user).files key ≡ Some entry }
{}

/// What is owned, and what is held.
pub fn law_of_holding()
    ensures owned { (own : List Fp) (fp : Fp) → IsTrue (is_among own fp) ↔ Contains own fp }
    // What is held under a fingerprint is a string of some Put, and has that fingerprint.
    ensures held { (list : List Command) (fp : Fp) (string : List ℕ) → held_string list fp ≡ Some string
        → (fingerprint string ≡ fp) × Contains (flat_map strings_of list) string }
    // A fingerprint that some user owns is held.
    ensures is_held { (shape : Shape) (list : List Command) (user : UserId) (fp : Fp)
        → Contains (user_view shape list user).own fp
        → (string : List ℕ) × (held_string list fp ≡ Some string) × (fingerprint string ≡ fp) }
    // What is held stays held, whichever commands follow.
    ensures stays { (list more : List Command) (fp : Fp) (string : List ℕ) → held_string list fp ≡ Some string
        → held_string (list ++ more) fp ≡ Some string }
{}

/// A reply, and the command that it adds, follow from the asking user's view, and with GetShares from the strings held for that
/// user's own fingerprints.
pub fn law_of_isolation()
    ensures by_view { (shape : Shape) (cloud : ℕ) (one two : List Command) (request : Request)
        → user_view shape two (asker request) ≡ user_view shape one (asker request)
        → HeldAlike (user_view shape one (asker request)) (held_string one) (held_string two) request
        → answer_over shape cloud two request ≡ answer_over shape cloud one request }
    // A request adds no other user's command.
    ensures adds { (shape : Shape) (cloud : ℕ) (list : List Command) (request : Request) (command : Command)
        → (answer_over shape cloud list request).adds ≡ Some command → user_of command ≡ asker request }
    // Another user's command changes no reply.
    ensures others { (shape : Shape) (cloud : ℕ) (list : List Command) (command : Command) (request : Request)
        → (user_of command).0 ≢ (asker request).0
        → answer_over shape cloud (list ++ command ∷ []) request ≡ answer_over shape cloud list request }
{}

/// The reply of a cloud with a sound list is one that fits its request and can be written.
pub fn law_of_replies()
    ensures { (shape : Shape) (cloud : ℕ) (list : List Command) (request : Request) → IsSound shape cloud list
        → cloud < 256
        → FitsRequest request → HasRecipe shape request
        → Suits shape request (answer_over shape cloud list request).reply }
{}

/// So is the reply of a cloud that may have no room for a command.
pub fn law_of_served_replies()
    ensures { (shape : Shape) (cloud : ℕ) (full : List Command → Command → Option FullRoom) (list : List Command)
        (request : Request) → IsSound shape cloud list → cloud < 256 → FitsRequest request → HasRecipe shape request
        → IsReplyTo (items_of shape request) request (served shape cloud full list request).reply }
{}

/// A cloud whose list is told executes a request of sound lists, and its lists stay sound, whatever happens on the way.
pub fn law_of_execution()
    ensures { (shape : Shape) (cloud : ℕ) (full : List Command → Command → Option FullRoom) (old new : Peer)
        (request : Request) (reply : Reply) → StandsSound shape cloud old → FitsRequest request
        → HasRecipe shape request
        → Exec shape true (served shape cloud full) old request reply new → StandsSound shape cloud new }
{}

/// What a Put adds: of the strings sent whose SHA-256 isn't the user's own, the first of each SHA-256.
pub fn law_of_new_strings()
    ensures { (own : List Fp) (sent : List (List ℕ)) → AreNew own sent (new_strings own sent) }
{}

/// The entry of a tag and version.
pub fn law_of_entries()
    ensures some { (files : List FileEntry) (key : Tag × Version) (entry : FileEntry) → entry_at files key ≡ Some entry
        → (key_of entry ≡ key) × Contains files entry }
    ensures none { (files : List FileEntry) (key : Tag × Version) → entry_at files key ≡ None
        → (i : ℕ) (entry : FileEntry) → slice_get files i ≡ Some entry → key_of entry ≢ key }
{}

/// Sound lists: each command is one that the cloud adds after those before it.
pub fn law_of_sound_lists()
    ensures begun { (shape : Shape) (cloud : ℕ) → IsSound shape cloud [] }
    // An added command keeps a list sound, and the last command of a sound list was added to a sound one.
    ensures added { (shape : Shape) (cloud : ℕ) (list : List Command) (request : Request) (command : Command)
        → IsSound shape cloud list → FitsRequest request → HasRecipe shape request
        → (answer_over shape cloud list request).adds ≡ Some command → IsSound shape cloud (list ++ command ∷ []) }
    ensures before { (shape : Shape) (cloud : ℕ) (list : List Command) (command : Command)
        → IsSound shape cloud (list ++ command ∷ []) → IsAddedCommand shape cloud list command }
    // What is deleted was there.
    ensures there { (shape : Shape) (cloud : ℕ) (list : List Command) (user : UserId) (key : Tag × Version)
        → IsSound shape cloud (list ++ deletion user key ∷ [])
        → IsSome (entry_at (user_view shape list user).files key) }
    // A key has one entry.
    ensures apart { (shape : Shape) (cloud : ℕ) (list : List Command) (user : UserId) → IsSound shape cloud list
        → AreApart (user_view shape list user).files }
    // The fingerprints of an entry's items are owned; and what is owned is held.
    ensures owned { (shape : Shape) (cloud : ℕ) (list : List Command) (user : UserId) (entry : FileEntry)
        → IsSound shape cloud list → Contains (user_view shape list user).files entry
        → All (Contains (user_view shape list user).own) (fps_of shape entry.recipe) }
{}

/// What List answers: the least tags and versions above the given one, at most 256, rising.
pub fn law_of_pages()
    ensures { (files : List FileEntry) (after : Option (Tag × Version)) → IsPage files after (page_of files after) }
{}

/// Content asks a request exactly where it is the request's one spelling, with the recipe of a Commit the one spelling of a recipe.
pub fn law_of_asking()
    ensures { (shape : Shape) (content : List ℕ) (request : Request) → AreBytes content
        → (asked_at shape content ≡ Ok request) ↔ AsksOfStore shape content request }
{}
