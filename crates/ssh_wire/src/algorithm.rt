//! Host key algorithms (RFC 8709, RFC 5656, RFC 8332, RFC 4253 section 6.6).

ghost use Rattle.std.specs.Prelude.{◌≡◌, IfSome, Some};

/// A host key algorithm.
#[derive(Clone, Copy, Debug, PartialEq, Eq, Hash)]
pub enum Algorithm {
    Ed25519,
    Ecdsa(EcdsaCurve),
    /// With the hash of its signatures; SHA-1 where none is named.
    Rsa(Option<HashAlg>),
}

/// A curve of RFC 5656 section 10.1.
#[derive(Clone, Copy, Debug, PartialEq, Eq, Hash)]
pub enum EcdsaCurve {
    NistP256,
    NistP384,
    NistP521,
}

/// A hash of RFC 8332.
#[derive(Clone, Copy, Debug, PartialEq, Eq, Hash)]
pub enum HashAlg {
    Sha256,
    Sha512,
}

const ALGORITHMS: [Algorithm; 7] = [
    Algorithm::Ed25519,
    Algorithm::Ecdsa(EcdsaCurve::NistP256),
    Algorithm::Ecdsa(EcdsaCurve::NistP384),
    Algorithm::Ecdsa(EcdsaCurve::NistP521),
    Algorithm::Rsa(Some(HashAlg::Sha512)),
    Algorithm::Rsa(Some(HashAlg::Sha256)),
    Algorithm::Rsa(None),
];

impl Algorithm {
    ghost use Rattle.ssh_wire.specs.Algorithms.{algorithm_name, certificate_name, algorithm_named, hash_of, with_hash};

    /// The name.
    pub fn as_str(self) -> &'static str
        ensures { result.now ≡ algorithm_name self }
    {
        match self {
            Algorithm::Ed25519 => "ssh-ed25519",
            Algorithm::Ecdsa(EcdsaCurve::NistP256) => "ecdsa-sha2-nistp256",
            Algorithm::Ecdsa(EcdsaCurve::NistP384) => "ecdsa-sha2-nistp384",
            Algorithm::Ecdsa(EcdsaCurve::NistP521) => "ecdsa-sha2-nistp521",
            Algorithm::Rsa(Some(HashAlg::Sha512)) => "rsa-sha2-512",
            Algorithm::Rsa(Some(HashAlg::Sha256)) => "rsa-sha2-256",
            Algorithm::Rsa(None) => "ssh-rsa",
        }
    }

    /// The algorithm of the name.
    pub fn from_str(s: &str) -> Option<Algorithm>
        ensures named { result ≡ algorithm_named algorithm_name s.now }
        ensures found { IfSome result (λ a. algorithm_name a ≡ s.now) }
        ensures every { (a : Algorithm) → s.now ≡ algorithm_name a → result ≡ Some a }
    {
        for algorithm in ALGORITHMS {
            if algorithm.as_str() == s {
                return Some(algorithm);
            }
        }
        None
    }

    /// The name of its certificates: the name and `-cert-v01@openssh.com`.
    pub fn to_certificate_type(self) -> &'static str
        ensures { result.now ≡ certificate_name self }
    {
        match self {
            Algorithm::Ed25519 => "ssh-ed25519-cert-v01@openssh.com",
            Algorithm::Ecdsa(EcdsaCurve::NistP256) => "ecdsa-sha2-nistp256-cert-v01@openssh.com",
            Algorithm::Ecdsa(EcdsaCurve::NistP384) => "ecdsa-sha2-nistp384-cert-v01@openssh.com",
            Algorithm::Ecdsa(EcdsaCurve::NistP521) => "ecdsa-sha2-nistp521-cert-v01@openssh.com",
            Algorithm::Rsa(Some(HashAlg::Sha512)) => "rsa-sha2-512-cert-v01@openssh.com",
            Algorithm::Rsa(Some(HashAlg::Sha256)) => "rsa-sha2-256-cert-v01@openssh.com",
            Algorithm::Rsa(None) => "ssh-rsa-cert-v01@openssh.com",
        }
    }

    /// The algorithm whose certificates have the name.
    pub fn new_certificate_ext(algo: &str) -> Option<Algorithm>
        ensures named { result ≡ algorithm_named certificate_name algo.now }
        ensures found { IfSome result (λ a. certificate_name a ≡ algo.now) }
        ensures every { (a : Algorithm) → algo.now ≡ certificate_name a → result ≡ Some a }
    {
        for algorithm in ALGORITHMS {
            if algorithm.to_certificate_type() == algo {
                return Some(algorithm);
            }
        }
        None
    }

    /// The hash of an Rsa algorithm, None of another.
    pub fn hash_alg(self) -> Option<HashAlg>
        ensures { result ≡ hash_of self }
    {
        match self {
            Algorithm::Rsa(hash) => hash,
            _ => None,
        }
    }

    /// An Rsa algorithm with this hash, another as it is.
    pub fn with_hash_alg(self, hash_alg: Option<HashAlg>) -> Algorithm
        ensures { result ≡ with_hash hash_alg self }
    {
        match self {
            Algorithm::Rsa(_) => Algorithm::Rsa(hash_alg),
            other => other,
        }
    }
}
