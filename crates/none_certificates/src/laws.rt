//! The law of the texts of certificates. The function states the law, and its body does nothing.
ghost use Rattle.std.specs.Prelude.{◌≡◌, IsTrue};
ghost use Rattle.none_certificates.specs.Certificates.{Certificate, is_certificate};
ghost use Rattle.none_certificates.specs.Texts.{certificate_text};

/// A text is that of at most one certificate.
pub fn certificates_are_one()
    ensures { (c d : Certificate) → IsTrue (is_certificate c) → IsTrue (is_certificate d) → certificate_text c ≡ certificate_text d → c ≡ d }
{}
