//! The laws of what areas stand for, for the proofs of callers. The calls do nothing.

ghost use Rattle.std.specs.Prelude.{◌≡◌, ◌↔◌, ◌+◌, ◌≤◌, ℕ, List, [], ◌∷◌, ◌++◌, length, map, Some, All};
ghost use Rattle.std.specs.List.{Contains};
ghost use Rattle.user_dedup.specs.CdBase.ids.Fp.{Fp};
ghost use Rattle.user_dedup.specs.CdBase.ids.Tag.{Tag};
ghost use Rattle.user_dedup.specs.CdBase.ids.UserId.{UserId};
ghost use Rattle.user_dedup.specs.CdBase.ids.Version.{Version};
ghost use Rattle.user_dedup.specs.CdBase.shape.Shape.{Shape};
ghost use Rattle.journal_halves.specs.CdEdges.area.Area.TheVariants.{Journal};
ghost use Rattle.journal_halves.specs.CdEdges.Disk.{Image};
ghost use Rattle.container_log.specs.Laying.{lengths, Placed, placed};
ghost use Rattle.container_log.specs.Places.{end_of_laid};
ghost use Rattle.journal_halves.specs.Beginnings.{IsUnbegun};
ghost use Rattle.journal_halves.specs.Beginnings.{new_of};
ghost use Rattle.journal_halves.specs.Halves.{half_limit, IsCurrent};
ghost use Rattle.journal_halves.specs.Journals.{Where, HasChain, with_body, used_by};
ghost use Rattle.journal_halves.specs.JournalStart.rooms.UserRooms.{UserRooms};
ghost use Rattle.journal_halves.specs.JournalStart.start.Header.{Header};
ghost use Rattle.journal_halves.specs.JournalStart.start.Start.{Start};
ghost use Rattle.journal_halves.specs.JournalStart.Ranges.{AreRooms};
ghost use Rattle.record_body.specs.Spelling.{Body, body_bytes, FitsBody};
ghost use Rattle.user_dedup.specs.CdBase.place.Place.{Place};
ghost use Rattle.user_dedup.specs.declared.file_list.FileEntry.{FileEntry};
ghost use Rattle.user_dedup.specs.Cloud.{fingerprint};
ghost use Rattle.user_dedup.specs.Pages.{entry_at};
ghost use Rattle.user_dedup.specs.declared.command.Command.{Command};
ghost use Rattle.user_dedup.specs.Dedup.{IsSound};
ghost use Rattle.user_dedup.specs.Cloud.{counted, strings_in, user_view};
ghost use Rattle.user_dedup.specs.Spending.{spent_by_all, IsWithin};
ghost use Rattle.cloud_areas.specs.Adding.{with_record, Adds, KeepsBlobs, HasRoomFor};
ghost use Rattle.cloud_areas.specs.Chains.{IsRecord, laid_shares, BothHaveRoom};
ghost use Rattle.cloud_areas.specs.Checkpoints.{AreDistinct, IsCheckpointOfList};
ghost use Rattle.cloud_areas.specs.Placing.{shares_in, shares_placed, recipes_in, recipes_placed, fps_placed};
ghost use Rattle.cloud_areas.specs.Laid.{AreLaid, end_behind, place_by, IsLaidBehind, HaveEnds};
ghost use Rattle.cloud_areas.specs.Placing.{AreBehind, HasPlace, places_of, total_len, region_start, shares_end, recipes_end};
ghost use Rattle.cloud_areas.specs.Standing.{Chain, where_of, region_in, number_at, IsChain, Holds, StandsFor};
ghost use Rattle.cloud_areas.specs.Standing.{HasChainOf, HeldShareLies, EntryLies};
ghost use Rattle.cloud_areas.specs.Summaries.{SumsUp};

/// Which areas stand for which lists.
pub fn law_of_standing()
    // A journal of which no half is begun stands for no commands, and for nothing else; so do three empty areas.
    ensures unbegun { (image : Image) (header : Header) → IsUnbegun (image Journal) → StandsFor image header [] }
    ensures only { (image : Image) (header : Header) (list : List Command) → StandsFor image header list
        → IsUnbegun (image Journal) → list ≡ [] }
    ensures empty { (image : Image) (header : Header) → image Journal ≡ [] → StandsFor image header [] }
    // A journal that has a start alone, which is no checkpoint's, stands for no commands, and for nothing else.
    ensures started { (image : Image) (header : Header) → HasChain (image Journal) (new_of header)
        → StandsFor image header [] }
    ensures started_only { (image : Image) (header : Header) (list : List Command) → StandsFor image header list
        → HasChain (image Journal) (new_of header) → list ≡ [] }
    // A sound list that a chain of the journal says.
    ensures has { (image : Image) (header : Header) (list : List Command) (c : Chain)
        → IsSound header.shape header.cloud.0 list → IsChain header (half_limit header.rooms) (image Journal) c
        → Holds header image list c → StandsFor image header list }
    ensures sound { (image : Image) (header : Header) (list : List Command) → StandsFor image header list
        → IsSound header.shape header.cloud.0 list }
    // Where the journal has a chain, each list that the areas stand for is said by that chain.
    ensures chain { (image : Image) (header : Header) (list : List Command) (w : Where) → StandsFor image header list
        → HasChain (image Journal) w → HasChainOf image header list w }
    // A chain that says one of them says them all.
    ensures one { (image : Image) (header : Header) (one two : List Command) (c : Chain)
        → IsChain header (half_limit header.rooms) (image Journal) c → Holds header image one c
        → StandsFor image header two → Holds header image two c }
{}

/// Areas of which some half is begun, and that stand for a list, have the list's header in the start of their current half.
pub fn law_of_headers()
    ensures { (image : Image) (header : Header) (list : List Command) (half : ℕ) (start : Start)
        → StandsFor image header list → ¬ IsUnbegun (image Journal) → IsCurrent (image Journal) half start
        → start.header ≡ header }
{}

/// One record more says one command more. What was placed before stays placed, as long as it lies in the areas.
pub fn law_of_one_more()
    ensures holds { (header : Header) (image : Image) (list : List Command) (c : Chain) (command : Command)
        (body : Body) (laid : List Placed) → Holds header image list c → Adds header image list c command body laid
        → Holds header image (list ++ command ∷ []) (with_record c body laid) }
    // The same over another image, in which each placed blob lies as before.
    ensures keeps { (header : Header) (image other : Image) (list : List Command) (c : Chain)
        → Holds header image list c → KeepsBlobs image other list c → Holds header other list c }
    // The longer chain's records in a journal, and a journal that has it has that chain.
    ensures bodies { (c : Chain) (body : Body) (laid : List Placed)
        → where_of (with_record c body laid) ≡ with_body (where_of c) (body_bytes body) }
    ensures chain { (header : Header) (limit : ℕ) (old new : List ℕ) (c : Chain) (body : Body) (laid : List Placed)
        → IsChain header limit old c → FitsBody body → HasChain new (with_body (where_of c) (body_bytes body))
        → used_by (with_body (where_of c) (body_bytes body)) ≤ limit
        → IsChain header limit new (with_record c body laid) }
    // Both areas have room for what lies behind all that they have.
    ensures room { (region : ℕ) (records : List Body) (list : List Command) (command : Command) (body : Body)
        (laid : List Placed) → IsRecord region records list command body laid → BothHaveRoom region list records
        → HasRoomFor region (list ++ command ∷ []) records body
        → BothHaveRoom region (list ++ command ∷ []) (records ++ body ∷ []) }
    // What is placed was spent: of shares at least as many bytes, since one that is held costs its user too.
    ensures shares_spent { (region : ℕ) (records : List Body) (list : List Command) (command : Command) (body : Body)
        (laid : List Placed) → IsRecord region records list command body laid
        → (spent_by_all list).shares + total_len (places_of (shares_placed body))
        ≤ (spent_by_all (list ++ command ∷ [])).shares }
    ensures recipes_spent { (region : ℕ) (records : List Body) (list : List Command) (command : Command) (body : Body)
        (laid : List Placed) → IsRecord region records list command body laid
        → (spent_by_all list).recipes + total_len (recipes_placed body)
        ≡ (spent_by_all (list ++ command ∷ [])).recipes }
{}

/// What a server lays behind the ends of its areas has room there, and both areas end within their bounds again.
pub fn law_of_laying()
    // What is laid behind an end lies behind all that ends in front of it.
    ensures behind { (least end : ℕ) (places : List Place) → AreLaid end places → least ≤ end → AreBehind least places }
    // Blobs that a log takes in order are laid so.
    ensures blobs { (end : ℕ) (blobs : List (List ℕ)) → AreLaid end (map place_by (placed end blobs)) }
    ensures blobs_end { (end : ℕ) (blobs : List (List ℕ))
        → end_behind end (map place_by (placed end blobs)) ≡ end_of_laid end (lengths blobs) }
    ensures ends { (region : ℕ) (records : List Body) (list : List Command) (command : Command) (body : Body)
        (laid : List Placed) (shares recipes : ℕ) → IsRecord region records list command body laid
        → HaveEnds region list records shares recipes → IsLaidBehind shares recipes body
        → HaveEnds region (list ++ command ∷ []) (records ++ body ∷ [])
        (end_behind shares (places_of (shares_placed body))) (end_behind recipes (recipes_placed body)) }
    ensures room { (region : ℕ) (records : List Body) (list : List Command) (command : Command) (body : Body)
        (laid : List Placed) (shares recipes : ℕ) → IsRecord region records list command body laid
        → BothHaveRoom region list records → HaveEnds region list records shares recipes
        → IsLaidBehind shares recipes body → BothHaveRoom region (list ++ command ∷ []) (records ++ body ∷ []) }
{}

/// The number of commands: that of the start, and one for each record behind its checkpoint's.
pub fn law_of_numbers()
    ensures number { (image : Image) (header : Header) (list : List Command) (w : Where) → StandsFor image header list
        → HasChain (image Journal) w → counted list ≡ number_at w }
    // All lists that areas stand for have one number.
    ensures same { (image : Image) (header : Header) (one two : List Command) → StandsFor image header one
        → StandsFor image header two → counted one ≡ counted two }
{}

/// Where a chain places shares and recipes.
pub fn law_of_places()
    // The shares that have a place are those that are held.
    ensures placed { (header : Header) (image : Image) (list : List Command) (c : Chain) (fp : Fp)
        → Holds header image list c → Contains (map fingerprint (strings_in list)) fp ↔ HasPlace c.records fp }
    // Each has one place, which one record names.
    ensures once { (header : Header) (image : Image) (list : List Command) (c : Chain) → Holds header image list c
        → AreDistinct (fps_placed (shares_in c.records)) }
    ensures one { (header : Header) (image : Image) (list : List Command) (c : Chain) (fp : Fp) (a b : Place)
        → Holds header image list c → Contains (shares_in c.records) (fp, a) → Contains (shares_in c.records) (fp, b)
        → a ≡ b }
    // There the string lies that is held; and the recipe of each entry lies where a Commit of its key says.
    ensures share_lies { (header : Header) (image : Image) (list : List Command) (c : Chain) (fp : Fp) (place : Place)
        → Holds header image list c → Contains (shares_in c.records) (fp, place) → HeldShareLies image list fp place }
    ensures entry_lies { (header : Header) (image : Image) (list : List Command) (c : Chain) (user : UserId)
        (key : Tag × Version) (entry : FileEntry) → Holds header image list c
        → entry_at (user_view header.shape list user).files key ≡ Some entry → EntryLies image c user key entry }
    // A record more places what it says, and both ends only grow.
    ensures shares { (records : List Body) (body : Body)
        → shares_in (records ++ body ∷ []) ≡ shares_in records ++ shares_placed body }
    ensures recipes { (records : List Body) (body : Body)
        → recipes_in (records ++ body ∷ []) ≡ recipes_in records ++ recipes_placed body }
    ensures shares_grow { (region : ℕ) (records : List Body) (body : Body)
        → shares_end region records ≤ shares_end region (records ++ body ∷ []) }
    ensures recipes_grow { (region : ℕ) (records : List Body) (body : Body)
        → recipes_end region records ≤ recipes_end region (records ++ body ∷ []) }
    // Each blob lies in front of the end of its area.
    ensures share_within { (header : Header) (image : Image) (list : List Command) (c : Chain) (b : Placed)
        → Holds header image list c → Contains (laid_shares list (shares_in c.records)) b
        → b.place + length b.blob ≤ shares_end (region_in c) c.records }
    ensures recipe_within { (header : Header) (image : Image) (list : List Command) (c : Chain) (b : Placed)
        → Holds header image list c → Contains c.recipes b
        → b.place + length b.blob ≤ recipes_end (region_in c) c.records }
    // A list within its rooms brings neither end near the end of its region, which has 34,359,738,368 places.
    ensures shares_far { (shape : Shape) (rooms : UserRooms) (region : ℕ) (list : List Command) (records : List Body)
        → IsWithin shape rooms list → AreRooms rooms → BothHaveRoom region list records
        → shares_end region records ≤ region_start region + 25769803776 }
    ensures recipes_far { (shape : Shape) (rooms : UserRooms) (region : ℕ) (list : List Command) (records : List Body)
        → IsWithin shape rooms list → AreRooms rooms → BothHaveRoom region list records
        → recipes_end region records ≤ region_start region + 3221225472 }
{}

/// A checkpoint in the place of the chain that it sums up.
pub fn law_of_checkpoints()
    // It says the same list.
    ensures holds { (header : Header) (image : Image) (list : List Command) (old c : Chain)
        → Holds header image list old → SumsUp header image list old c → Holds header image list c }
    // So areas whose journal has it stand for the list, whatever became of the old chain.
    ensures stands { (header : Header) (image : Image) (list : List Command) (old c : Chain)
        → IsSound header.shape header.cloud.0 list → Holds header image list old → SumsUp header image list old c
        → IsChain header (half_limit header.rooms) (image Journal) c → StandsFor image header list }
    // Behind it the half has room for one record more, whichever it is.
    ensures room { (header : Header) (list : List Command) (c : Chain) (body : Body)
        → IsWithin header.shape header.rooms list
        → IsCheckpointOfList header.format header.shape list c.records c.recipes → All FitsBody c.records
        → FitsBody body
        → used_by (with_body (where_of c) (body_bytes body)) ≤ half_limit header.rooms }
    // The greatest limit is less than half of a half.
    ensures limit { (rooms : UserRooms) → AreRooms rooms → half_limit rooms ≤ 52415307 }
{}
