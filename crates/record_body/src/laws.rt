//! The laws of bodies, for the proofs of callers. The calls do nothing.

ghost use Rattle.std.specs.Prelude.{◌≡◌, ◌↔◌, ℕ, ◌+◌, ◌*◌, ◌<◌, ◌≤◌, [], List, ◌∷◌, ◌++◌, length, All, Ok, Err};
ghost use Rattle.std.specs.List.{flat_map};
ghost use Rattle.record_body.specs.declared.body.BodyErr.TheVariants.{Extra, Short};
ghost use Rattle.record_body.specs.FirstReading as first_reading;
ghost use Rattle.record_body.specs.FirstSpelling as first;
ghost use Rattle.record_body.specs.declared.body.DeleteBody.{DeleteBody};
ghost use Rattle.record_body.specs.declared.body.KeptItem.{KeptItem};
ghost use Rattle.record_body.specs.declared.body.SpentBody.{SpentBody};
ghost use Rattle.record_body.specs.Spelling.{Body, Delete, Kept, Spent, lifted, FitsDelete, FitsKept, FitsSpent, FitsBody, IsBody, kept_front, kept_bytes, body_bytes};
ghost use Rattle.record_body.specs.Reading.{body_at};

/// Reading and spelling are inverse.
pub fn reading_laws()
    // bytes are read as a body exactly where they are its spelling
    ensures exact { (bytes : List ℕ) (b : Body) → All (λ x. x < 256) bytes → (body_at bytes ≡ Ok b) ↔ IsBody bytes b }
    // a body is read again
    ensures again { (b : Body) → FitsBody b → body_at (body_bytes b) ≡ Ok b }
    // no two bodies have one spelling
    ensures one { (a b : Body) → FitsBody a → FitsBody b → body_bytes a ≡ body_bytes b → a ≡ b }
    // bytes behind a body are refused at the first of them
    ensures extra { (b : Body) (x : ℕ) (rest : List ℕ) → FitsBody b
        → body_at (body_bytes b ++ x ∷ rest) ≡ Err (Extra (length (body_bytes b))) }
    // each proper beginning of a body is too short
    ensures short { (b : Body) (front : List ℕ) (x : ℕ) (rest : List ℕ) → FitsBody b
        → body_bytes b ≡ front ++ x ∷ rest → body_at front ≡ Err Short }
    // the bytes of a Put and of a Commit are read as they are where there are no other kinds
    ensures before { (bytes : List ℕ) (b : first.FirstBody) → All (λ x. x < 256) bytes
        → first_reading.body_at bytes ≡ Ok b → body_at bytes ≡ Ok (lifted b) }
{}

/// How long a body is.
pub fn length_laws()
    ensures delete { (delete : DeleteBody) → FitsDelete delete → length (body_bytes (Delete delete)) ≡ 45 }
    // a Kept has 3 bytes, and 44 for each item
    ensures kept { (items : List KeptItem) → All FitsKept items
        → length (body_bytes (Kept items)) ≡ 3 + 44 * length items }
    ensures spent { (spent : SpentBody) → length (body_bytes (Spent spent)) ≡ 25 }
    // the longest body
    ensures longest { (b : Body) → FitsBody b → length (body_bytes b) ≤ 11527 }
{}

/// What `BodyBuf` holds after a Kept is begun and its items are appended. For a Put see `first_laws::written_laws`.
pub fn written_laws()
    // with as many items as were named, it is the Kept's body
    ensures whole { (items : List KeptItem)
        → kept_front (length items) ++ flat_map kept_bytes items ≡ body_bytes (Kept items) }
    // before each of up to 256 items there is room for one more
    ensures room { (count : ℕ) (items : List KeptItem) → All FitsKept items → length items < 256
        → length (kept_front count ++ flat_map kept_bytes items) + 44 ≤ 65535 }
{}
