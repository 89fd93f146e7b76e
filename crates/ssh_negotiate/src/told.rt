//! How long the lists are that a side advertises, told without making them.

ghost use Rattle.std.specs.Prelude.{◌≡◌, ◌++◌, ◌∷◌, [], ◌↔◌, ℕ, IsTrue, List, filter, map, not};
ghost use Rattle.std.specs.List.{flat_map};
ghost use Rattle.ssh_wire.specs.Algorithms.{algorithm_name, certificate_name};
ghost use Rattle.ssh_wire.specs.declared.algorithm.Algorithm.{Algorithm};
ghost use Rattle.ssh_negotiate.specs.Advertised.{each_once, fits, has_key, host_text, is_foreign, some_fits};
ghost use Rattle.ssh_negotiate.specs.Laws.{IsListed};
ghost use Rattle.ssh_negotiate.specs.Tables.{kex_text};
ghost use Rattle.ssh_negotiate.specs.Told.{Knows, Tells, has_seen};
ghost use Rattle.ssh_negotiate.specs.declared.negotiation.HostName.TheVariants.{Certificate, Plain};
ghost use Rattle.ssh_negotiate.specs.declared.preferred.HostCertificate.{HostCertificate};

use crate::kex;
use crate::negotiation::AsName;
use crate::offers::{is_foreign, is_key_there};
use crate::preferred::{HostCertificate, HostKey, is_fitting, some_key_fits};
use ssh_wire::{Algorithm, EcdsaCurve, HashAlg, Side};

/// How many names a list may have.
const NAME_LIMIT: usize = 1024;

/// How many bytes a list may have as text.
const NAME_LIST_LIMIT: usize = 16384;

/// How many names a list has so far, and how many bytes they have with a comma behind each. Both stop at one more than
/// may be advertised.
#[derive(Clone, Copy, Drop)]
pub(crate) struct Told {
    names: usize,
    bytes: usize,
}

impl Told {
    /// No names.
    pub(crate) fn nothing() -> Told
        ensures { Tells result [] }
    {
        Told { names: 0, bytes: 0 }
    }

    /// One more name.
    pub(crate) fn add(&mut self, name: &str)
        ensures { (texts : List (List ℕ)) → Tells self.old texts → Tells self.new (texts ++ name.now ∷ []) }
    {
        self.names = self.names.saturating_add(1).min(NAME_LIMIT + 1);
        let bytes = self.bytes.saturating_add(name.len()).saturating_add(1);
        self.bytes = bytes.min(NAME_LIST_LIMIT + 2);
    }

    /// Names, in order.
    pub(crate) fn add_all<A: AsName>(&mut self, names: &[A])
        ensures { (texts : List (List ℕ)) → Tells self.old texts → Tells self.new (texts ++ map A.text names.now) }
    {
        for name in names {
            self.add(name.as_name());
        }
    }

    /// The key exchanges that a side advertises: all but the two extension names of the other side.
    pub(crate) fn add_kex(&mut self, side: Side, kex: &[kex::Name])
        ensures { (texts : List (List ℕ)) → Tells self.old texts
            → Tells self.new (texts ++ map kex_text (filter (λ n. not (is_foreign side n)) kex.now)) }
    {
        for name in kex {
            if !is_foreign(side, *name) {
                self.add(name.as_str());
            }
        }
    }

    /// The names of certificates.
    pub(crate) fn add_certificates(&mut self, algorithms: &[Algorithm])
        ensures { (texts : List (List ℕ)) → Tells self.old texts
            → Tells self.new (texts ++ map certificate_name algorithms.now) }
    {
        for algorithm in algorithms {
            self.add(algorithm.to_certificate_type());
        }
    }

    /// The names of keys.
    pub(crate) fn add_keys(&mut self, algorithms: &[Algorithm])
        ensures { (texts : List (List ℕ)) → Tells self.old texts
            → Tells self.new (texts ++ map algorithm_name algorithms.now) }
    {
        for algorithm in algorithms {
            self.add(algorithm.as_str());
        }
    }

    /// The names of the keys under which some key signs.
    pub(crate) fn add_fitting(&mut self, preferred: &[Algorithm], keys: &[HostKey])
        ensures { (texts : List (List ℕ)) → Tells self.old texts
            → Tells self.new (texts ++ map algorithm_name (filter (some_fits keys.now) preferred.now)) }
    {
        for algorithm in preferred {
            if some_key_fits(keys, *algorithm) {
                self.add(algorithm.as_str());
            }
        }
    }

    /// The names of a server's certificates, as `server_certificate_names` has them.
    pub(crate) fn add_held(
        &mut self,
        preferred: &[Algorithm],
        certificates: &[HostCertificate],
        keys: &[HostKey],
    )
        ensures { Tells self.old [] → Tells self.new (map certificate_name
            (each_once (flat_map (λ (c : HostCertificate). filter (fits c.algorithm) preferred.now)
            (filter (has_key keys.now) certificates.now)))) }
    {
        let mut seen = Seen::nothing();
        for certificate in certificates {
            if is_key_there(keys, certificate) {
                self.add_new(&mut seen, preferred, certificate.algorithm);
            }
        }
    }

    /// The names of the preferred algorithms that a certificate fits, each where it wasn't seen.
    fn add_new(&mut self, seen: &mut Seen, preferred: &[Algorithm], certificate: Algorithm)
        ensures { (found : List Algorithm) → Tells self.old (map certificate_name (each_once found))
            → Knows seen.old (each_once found)
            → Tells self.new (map certificate_name (each_once (found ++ filter (fits certificate) preferred.now)))
            × Knows seen.new (each_once (found ++ filter (fits certificate) preferred.now)) }
    {
        for algorithm in preferred {
            if is_fitting(certificate, *algorithm) && !seen.has(*algorithm) {
                seen.mark(*algorithm);
                self.add(algorithm.to_certificate_type());
            }
        }
    }

    /// Whether a list of these names can be advertised.
    pub(crate) fn is_listed(&self) -> bool
        ensures { (texts : List (List ℕ)) → Tells self.now texts → (IsTrue result ↔ IsListed texts) }
    {
        self.names <= NAME_LIMIT && self.bytes <= NAME_LIST_LIMIT + 1
    }
}

/// Which algorithms were seen.
#[derive(Clone, Copy, Drop)]
struct Seen {
    ed25519: bool,
    nistp256: bool,
    nistp384: bool,
    nistp521: bool,
    rsa: bool,
    rsa_sha256: bool,
    rsa_sha512: bool,
}

impl Seen {
    fn nothing() -> Seen
        ensures { Knows result [] }
    {
        Seen {
            ed25519: false,
            nistp256: false,
            nistp384: false,
            nistp521: false,
            rsa: false,
            rsa_sha256: false,
            rsa_sha512: false,
        }
    }

    fn has(&self, algorithm: Algorithm) -> bool
        ensures { result ≡ has_seen self.now algorithm }
    {
        match algorithm {
            Algorithm::Ed25519 => self.ed25519,
            Algorithm::Ecdsa(EcdsaCurve::NistP256) => self.nistp256,
            Algorithm::Ecdsa(EcdsaCurve::NistP384) => self.nistp384,
            Algorithm::Ecdsa(EcdsaCurve::NistP521) => self.nistp521,
            Algorithm::Rsa(None) => self.rsa,
            Algorithm::Rsa(Some(HashAlg::Sha256)) => self.rsa_sha256,
            Algorithm::Rsa(Some(HashAlg::Sha512)) => self.rsa_sha512,
        }
    }

    fn mark(&mut self, algorithm: Algorithm)
        ensures { (list : List Algorithm) → Knows self.old list → Knows self.new (list ++ algorithm ∷ []) }
    {
        match algorithm {
            Algorithm::Ed25519 => self.ed25519 = true,
            Algorithm::Ecdsa(EcdsaCurve::NistP256) => self.nistp256 = true,
            Algorithm::Ecdsa(EcdsaCurve::NistP384) => self.nistp384 = true,
            Algorithm::Ecdsa(EcdsaCurve::NistP521) => self.nistp521 = true,
            Algorithm::Rsa(None) => self.rsa = true,
            Algorithm::Rsa(Some(HashAlg::Sha256)) => self.rsa_sha256 = true,
            Algorithm::Rsa(Some(HashAlg::Sha512)) => self.rsa_sha512 = true,
        }
    }
}
