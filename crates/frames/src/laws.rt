//! What frames, streams and framers mean, as laws.

ghost use Rattle.std.specs.Prelude.{◌≡◌, ℕ, List, ◌++◌};
ghost use Rattle.frames.specs.Frames.{IsContent, AreContents, frame, stream, NoneWithin, IsRefused};
ghost use Rattle.frames.specs.Steps.{Run};

/// No frame is a proper beginning of another one: whatever follows two frames, where the bytes are the same the frames
/// and what follows them are.
pub fn law_of_frames()
    ensures { (one two behind_one behind_two : List ℕ) → IsContent one → IsContent two
        → frame one ++ behind_one ≡ frame two ++ behind_two → (one ≡ two) × (behind_one ≡ behind_two) }
{}

/// The bytes that a framer took since it was made or reset are the frames that it showed and dropped, in order, and
/// then the bytes that stand in it. No frame begins these and ends before they do: each frame that came was shown, but
/// for the one that may stand whole.
pub fn law_of_runs()
    ensures { (total : List ℕ) (shown : List (List ℕ)) (standing : List ℕ) → Run total shown standing
        → AreContents shown × (total ≡ stream shown ++ standing) × NoneWithin standing }
{}

/// Where the bytes that a framer took begin a stream of frames, the contents that it showed and dropped are the first
/// of that stream, in order; what stands in it begins the frames of the others, and no length was refused.
pub fn law_of_streams()
    ensures { (total : List ℕ) (shown : List (List ℕ)) (standing : List ℕ) → Run total shown standing
        → (sent : List (List ℕ)) (to_come : List ℕ) → AreContents sent → stream sent ≡ total ++ to_come
        → (others : List (List ℕ)) × ((sent ≡ shown ++ others) × (standing ++ to_come ≡ stream others)
        × (¬ IsRefused standing)) }
{}
