//! The law of certificates, for the proofs of callers. The call does nothing.

ghost use Rattle.std.specs.Prelude.{◌≡◌, ◌≢◌, ℕ, List, [], ◌∷◌, ◌++◌, All, Ok};
ghost use Rattle.certificate.specs.declared.line.CertificateLine.{CertificateLine};
ghost use Rattle.certificate.specs.Lines.{Certificate, certificate_line, certificate_lines, certificate_text};
ghost use Rattle.certificate.specs.Lines.{FitsLine, FitsCertificate};
ghost use Rattle.certificate.specs.Reading.{certificate_at};

/// A certificate has one text, and a text says one certificate at most.
pub fn law_of_certificates()
    // The text of a certificate is read back as its lines.
    ensures read_back { (c : Certificate) → FitsCertificate c
        → certificate_at (certificate_text c) ≡ Ok (certificate_lines c) }
    // A text that is read is the text of what it says.
    ensures one_text { (bytes : List ℕ) (said : List CertificateLine) → certificate_at bytes ≡ Ok said
        → (c : Certificate) × (said ≡ certificate_lines c) × FitsCertificate c × (bytes ≡ certificate_text c) }
    // So no two texts say the same, and no two certificates have one text.
    ensures one { (a b : Certificate) → FitsCertificate a → FitsCertificate b → certificate_text a ≡ certificate_text b
        → certificate_lines a ≡ certificate_lines b }
    // A line's text ends with its only newline.
    ensures ended { (x : CertificateLine) → FitsLine x
        → (body : List ℕ) × (certificate_line x ≡ body ++ 10 ∷ []) × All (λ b. b ≢ 10) body }
    // A line's text says the line,
    ensures one_line { (a b : CertificateLine) → FitsLine a → FitsLine b → certificate_line a ≡ certificate_line b
        → a ≡ b }
    // and what begins with it begins with no other line's.
    ensures apart { (a b : CertificateLine) (more rest : List ℕ) → FitsLine a → FitsLine b
        → certificate_line a ++ more ≡ certificate_line b ++ rest → (a ≡ b) × (more ≡ rest) }
{}
