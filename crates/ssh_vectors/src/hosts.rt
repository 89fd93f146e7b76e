//! Host keys whose signatures are hashes.

ghost use Rattle.std.specs.Prelude.{◌≡◌, ◌≤◌, ◌++◌, ℕ, List, length, Option, false, true, IfOk, OnOk, IfErr};
ghost use Rattle.std.specs.Option.{option_copied};
ghost use Rattle.ssh_kex.specs.Parts.{IsSmall, Presents, Setup};
ghost use Rattle.ssh_kex.specs.Signature.{judged};
ghost use Rattle.ssh_kex.specs.declared.exchange.ServerHost.{ServerHost};
ghost use Rattle.ssh_kex.specs.declared.parts.Refusal.TheVariants.{Memory};
ghost use Rattle.ssh_wire.specs.Forms.{string};
ghost use Rattle.ssh_vectors.specs.Hosts.{Makes, TrustsAll, accepted, check_answer, hosts_asked, is_trusted, trusted_as};
ghost use Rattle.ssh_vectors.specs.Hosts.{body_of, test_digest, test_signature};
ghost use Rattle.ssh_vectors.specs.Refusing.{is_refused};

use crate::counts::one_more;
use crate::hashing::take_string;
use ssh_kex::{HostKeys, Refusal, ServerHost};
use ssh_mac::{DigestKind, HashValue, Hasher};
use ssh_negotiate::HostKey;
use ssh_wire::{Algorithm, Blob, Error, encode_mpint, put_string};
use std::alloc::Global;
use std::marker::Model;

/// A host that is trusted: its blob, and the blob of the key that signs for it.
#[derive(Debug, Drop)]
pub struct TrustedHost {
    pub blob: Blob,
    pub key_blob: Blob,
}

/// Signs by hashes of key and text, and trusts the hosts that it was told of. Of several with one blob the first
/// decides.
#[derive(Debug, Drop)]
pub struct TestHosts {
    trusted: Vec<TrustedHost>,
    calls: u64,
    refused_verify: u64,
    refused_check: u64,
}

impl Model for TestHosts {
    ghost use Rattle.ssh_vectors.specs.Hosts.{AskedHosts};

    ghost Value = { AskedHosts };

    ghost view = { λ t. record {
      trusted = t.trusted.items;
      calls = t.calls;
      refused_verify = t.refused_verify;
      refused_check = t.refused_check;
    } };
}

impl TestHosts {
    /// Those that trust these hosts, and were never asked.
    pub fn new(trusted: Vec<TrustedHost>) -> TestHosts
        ensures { result ≡ record { trusted = trusted.items; calls = 0; refused_verify = 0; refused_check = 0 } }
    {
        TestHosts {
            trusted,
            calls: 0,
            refused_verify: 0,
            refused_check: 0,
        }
    }

    /// How often they were asked; the count stops at its end.
    pub fn calls(&self) -> u64
        ensures { result ≡ self.now.calls }
    {
        self.calls
    }

    /// How many signatures were refused; the count stops at its end.
    pub fn refused_verify(&self) -> u64
        ensures { result ≡ self.now.refused_verify }
    {
        self.refused_verify
    }

    /// How many hosts were refused; the count stops at its end.
    pub fn refused_check(&self) -> u64
        ensures { result ≡ self.now.refused_check }
    {
        self.refused_check
    }
}

impl HostKeys for TestHosts {
    ghost use Rattle.std.specs.Prelude.{◌≡◌};
    ghost use Rattle.ssh_vectors.specs.Hosts.{accepted, is_trusted, Makes, TrustsAll};
    ghost use Rattle.ssh_vectors.specs.Trusting.{all_trusted, all_accepted};

    ghost accepts = { λ v. accepted v.trusted };

    ghost trusts = { λ v. is_trusted v.trusted };

    ghost makes = { Makes };

    ghost lawful = { λ v s. Unit {0} };

    ghost signs = { λ v later s. Unit {0} };

    ghost judges = { λ v later s. TrustsAll v.trusted s.server };

    ghost refused_sign = { λ v. 0 };

    ghost refused_verify = { λ v. v.refused_verify };

    ghost refused_check = { λ v. v.refused_check };

    ghost calls = { λ v. v.calls };

    ghost answered = { λ v known n. true };

    ghost signs_lawful = { λ v later s o. tt };

    ghost judges_lawful = { λ v later s o. tt };

    ghost judges_trusts = { λ v later s host key o p. all_trusted v.trusted s.server host key o p };

    ghost judges_accepts = { λ v later s host hash signature o m.
        all_accepted v.trusted s.server host hash signature o m };

    fn sign(
        &mut self,
        alloc: Global,
        key: &HostKey,
        algorithm: Algorithm,
        hash: &HashValue,
    ) -> Result<Blob, Refusal>
        ensures exact { IfOk result (λ v. v ≡ test_signature algorithm key.now.blob hash.now) }
        ensures small { IfOk result (λ v. IsSmall v) }
        ensures made { (s : Setup) (host : ServerHost) → Presents s.server host key.now algorithm
            → IfOk result (λ v. Makes s.server host hash.now (judged v)) }
        ensures after { self.new ≡ hosts_asked self.old false false }
        ensures err { IfErr result (λ e. e ≡ Memory) }
    {
        self.calls = one_more(self.calls);
        match signature(alloc, algorithm, key.blob.as_slice(), hash.as_bytes()) {
            Ok(signature) => Ok(signature),
            Err(_) => Err(Refusal::Memory),
        }
    }

    fn verify(
        &mut self,
        alloc: Global,
        host: &ServerHost,
        hash: &HashValue,
        signature: &[u8],
    ) -> Result<(), Refusal>
        ensures ok { OnOk result (accepted self.old.trusted host.now hash.now signature.now ≡ true) }
        ensures taken { accepted self.old.trusted host.now hash.now signature.now ≡ true → is_refused result ≡ false }
        ensures after { self.new ≡ hosts_asked self.old (is_refused result) false }
    {
        self.calls = one_more(self.calls);
        match is_right(alloc, self.trusted.as_slice(), host, hash, signature) {
            Ok(true) => Ok(()),
            Ok(false) => {
                self.refused_verify = one_more(self.refused_verify);
                Err(Refusal::Refused)
            }
            Err(_) => Err(Refusal::Memory),
        }
    }

    fn check(&mut self, _alloc: Global, host: &ServerHost) -> Result<(), Refusal>
        ensures exact { result ≡ check_answer (is_trusted self.old.trusted host.now) }
        ensures after { self.new ≡ hosts_asked self.old false (is_refused result) }
    {
        self.calls = one_more(self.calls);
        if is_known(self.trusted.as_slice(), host) {
            return Ok(());
        }
        self.refused_check = one_more(self.refused_check);
        Err(Refusal::Refused)
    }
}

/// The first host that is trusted with a blob.
fn find_trusted<'a>(trusted: &'a [TrustedHost], blob: &[u8]) -> Option<&'a TrustedHost>
    ensures { option_copied result ≡ trusted_as trusted.now blob.now }
{
    trusted.iter().find(|host| host.blob.as_slice() == blob)
}

/// Whether the host is trusted.
fn is_known(trusted: &[TrustedHost], host: &ServerHost) -> bool
    ensures { result ≡ is_trusted trusted.now host.now }
{
    find_trusted(trusted, host.blob.as_slice()).is_some()
}

/// Whether the signature is that of the host, which is trusted. Memory.
fn is_right(
    alloc: Global,
    trusted: &[TrustedHost],
    host: &ServerHost,
    hash: &HashValue,
    given: &[u8],
) -> Result<bool, Error>
    ensures { IfOk result (λ b. b ≡ accepted trusted.now host.now hash.now given.now) }
{
    let Some(found) = find_trusted(trusted, host.blob.as_slice()) else {
        return Ok(false);
    };
    let right = signature(
        alloc,
        host.algorithm,
        found.key_blob.as_slice(),
        hash.as_bytes(),
    )?;
    Ok(given == right.as_slice())
}

/// The digest of what is signed.
fn digest(algorithm: Algorithm, key_blob: &[u8], hash: &[u8]) -> HashValue
    ensures exact { result ≡ test_digest algorithm key_blob.now hash.now }
    ensures size { length result ≡ 32 }
{
    let mut hasher = Hasher::new(DigestKind::Sha256);
    take_string(&mut hasher, algorithm.as_str().as_bytes());
    take_string(&mut hasher, key_blob);
    take_string(&mut hasher, hash);
    hasher.finalize()
}

/// Appends the digest, or for ECDSA twice its number. Memory.
fn put_body(out: &mut Vec<u8>, algorithm: Algorithm, digest: &[u8]) -> Result<(), Error>
    requires { length digest.now ≤ 64 }
    ensures { OnOk result (out.new.items ≡ out.old.items ++ body_of algorithm digest.now) }
{
    match algorithm {
        Algorithm::Ecdsa(_) => {
            encode_mpint(digest, out)?;
            encode_mpint(digest, out)?;
        }
        Algorithm::Ed25519 | Algorithm::Rsa(_) => out.extend_from_slice(digest)?,
    }
    Ok(())
}

/// The signature. Memory.
fn signature(
    alloc: Global,
    algorithm: Algorithm,
    key_blob: &[u8],
    hash: &[u8],
) -> Result<Blob, Error>
    ensures exact { IfOk result (λ b. b ≡ test_signature algorithm key_blob.now hash.now) }
    ensures small { IfOk result (λ b. IsSmall b) }
{
    let digest = digest(algorithm, key_blob, hash);
    let mut body = Vec::new(alloc);
    put_body(&mut body, algorithm, digest.as_bytes())?;
    let mut bytes = Vec::new(alloc);
    put_string(&mut bytes, algorithm.as_str().as_bytes())?;
    put_string(&mut bytes, body.as_slice())?;
    Ok(Blob::new(bytes))
}
