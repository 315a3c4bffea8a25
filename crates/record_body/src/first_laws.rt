//! The laws of bodies of format 1, for the proofs of callers. The calls do nothing.

ghost use Rattle.std.specs.Prelude.{◌≡◌, ◌↔◌, ℕ, ◌<◌, ◌≤◌, ◌+◌, ◌*◌, List, ◌∷◌, ◌++◌, length, All, Ok, Err, count_by, is_some};
ghost use Rattle.std.specs.List.{flat_map};
ghost use Rattle.message_fields.specs.CdBase.ids.UserId.{UserId};
ghost use Rattle.record_body.specs.declared.body.PutItem.{PutItem};
ghost use Rattle.record_body.specs.declared.body.CommitBody.{CommitBody};
ghost use Rattle.record_body.specs.declared.body.BodyErr.TheVariants.{Extra, Short};
ghost use Rattle.record_body.specs.FirstSpelling.{FirstBody, Put, Commit, FitsItem, FitsFirstBody, FitsCommit, IsFirstBody, put_front, item_bytes, body_bytes};
ghost use Rattle.record_body.specs.FirstReading.{body_at};

/// Reading and spelling are inverse.
pub fn reading_laws()
    // bytes are read as a body exactly where they are its spelling
    ensures exact { (bytes : List ℕ) (b : FirstBody) → All (λ x. x < 256) bytes
        → (body_at bytes ≡ Ok b) ↔ IsFirstBody bytes b }
    // a body is read again
    ensures again { (b : FirstBody) → FitsFirstBody b → body_at (body_bytes b) ≡ Ok b }
    // no two bodies have one spelling
    ensures one { (a b : FirstBody) → FitsFirstBody a → FitsFirstBody b → body_bytes a ≡ body_bytes b → a ≡ b }
    // bytes behind a body are refused at the first of them
    ensures extra { (b : FirstBody) (x : ℕ) (rest : List ℕ) → FitsFirstBody b
        → body_at (body_bytes b ++ x ∷ rest) ≡ Err (Extra (length (body_bytes b))) }
    // each proper beginning of a body is too short
    ensures short { (b : FirstBody) (front : List ℕ) (x : ℕ) (rest : List ℕ) → FitsFirstBody b
        → body_bytes b ≡ front ++ x ∷ rest
        → body_at front ≡ Err Short }
{}

/// How long a body is.
pub fn length_laws()
    // a Put has 7 bytes, 33 for each item, and 12 more for each place
    ensures put { (user : UserId) (items : List PutItem) → All FitsItem items
        → length (body_bytes (Put user items))
        ≡ 7 + 33 * length items + 12 * count_by (λ item. is_some item.place) items }
    ensures commit { (commit : CommitBody) → FitsCommit commit → length (body_bytes (Commit commit)) ≡ 89 }
    // the longest body
    ensures longest { (b : FirstBody) → FitsFirstBody b → length (body_bytes b) ≤ 11527 }
{}

/// What `RecordBuf` holds after a Put is begun and its items are appended.
pub fn written_laws()
    // with as many items as were named, it is the Put's body
    ensures whole { (user : UserId) (items : List PutItem)
        → put_front user (length items) ++ flat_map item_bytes items ≡ body_bytes (Put user items) }
    // before each of up to 256 items there is room for one more
    ensures room { (user : UserId) (count : ℕ) (items : List PutItem) → All FitsItem items → length items < 256
        → length (put_front user count ++ flat_map item_bytes items) + 45 ≤ 65535 }
{}
