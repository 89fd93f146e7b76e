//! RSA host keys, and hosts that are known by their blobs (RFC 4253 section 6.6, RFC 8332).

ghost use Rattle.std.specs.Prelude.{◌≡◌, true, false, IfOk, OnOk, IfErr, IfSome, Ok};
ghost use Rattle.ssh_kex.specs.Parts.{IsRefused, IsSmall, IsValue, Presents, Setup};
ghost use Rattle.ssh_kex.specs.Signature.{judged};
ghost use Rattle.ssh_kex.specs.declared.exchange.ServerHost.{ServerHost};
ghost use Rattle.ssh_kex.specs.declared.parts.Refusal.TheVariants.{Refused};
ghost use Rattle.ssh_modp.specs.Hosts.{AskedToCheck, AskedToSign, AskedToVerify, RsaMakes, SignsAll, is_known};
ghost use Rattle.ssh_modp.specs.Rsa.{IsRsaBlob, LacksSignature, accepts_blobs, rsa_accepts};

use crate::counts::one_more;
use crate::rsa::{accepts, signature_blob};
use ssh_kex::{HostKeys, Refusal, ServerHost};
use ssh_mac::HashValue;
use ssh_negotiate::HostKey;
use ssh_wire::{Algorithm, Blob};
use std::alloc::Global;
use std::marker::Model;

/// A private key: the blob of its public key (RFC 4253 section 6.6), and the private exponent, the most significant
/// byte first.
#[derive(Drop)]
pub struct RsaKey {
    pub blob: Blob,
    pub private: Blob,
}

/// Signs with one key, where there is one, and trusts the hosts whose blobs are known. A signature is tested under the
/// public key before it is given away, since one that was made wrong tells the key.
#[derive(Drop)]
pub struct RsaHosts {
    key: Option<RsaKey>,
    known: Vec<Blob>,
    calls: u64,
    refused_sign: u64,
    refused_verify: u64,
    refused_check: u64,
}

impl Model for RsaKey {
    ghost use Rattle.ssh_modp.specs.Hosts.{RsaSecret};

    ghost Value = { RsaSecret };

    ghost view = { λ k. record { blob = k.blob; private = k.private } };
}

impl Model for RsaHosts {
    ghost use Rattle.ssh_modp.specs.Hosts.{RsaAsked};

    ghost Value = { RsaAsked };

    ghost view = { λ h. record {
      key = h.key;
      known = h.known.items;
      calls = h.calls;
      refused_sign = h.refused_sign;
      refused_verify = h.refused_verify;
      refused_check = h.refused_check;
    } };
}

impl RsaHosts {
    /// Hosts that were never asked.
    pub fn new(key: Option<RsaKey>, known: Vec<Blob>) -> RsaHosts
        ensures { result ≡ record {
          key = key;
          known = known.items;
          calls = 0;
          refused_sign = 0;
          refused_verify = 0;
          refused_check = 0;
        } }
    {
        RsaHosts {
            key,
            known,
            calls: 0,
            refused_sign: 0,
            refused_verify: 0,
            refused_check: 0,
        }
    }

    /// A signature of the hash under the one key. Refused where there is none, and where it doesn't sign so. Memory.
    fn sign_hash(
        &mut self,
        alloc: Global,
        algorithm: Algorithm,
        hash: &HashValue,
    ) -> Result<Blob, Refusal>
        ensures after { AskedToSign self.old self.new result }
        ensures values { IfOk result (λ v. IsValue v) }
        ensures small { IfOk result (λ v. IsSmall v) }
        ensures right { IfOk result (λ b. IfSome self.old.key (λ k. accepts_blobs k.blob algorithm hash.now b ≡ true)) }
        ensures form { IfOk result (λ b. IsRsaBlob algorithm b) }
        ensures refused { IsRefused result
            → IfSome self.old.key (λ k. LacksSignature k.blob k.private algorithm hash.now) }
    {
        self.calls = one_more(self.calls);
        let signed = match &self.key {
            Some(key) => {
                let blob = key.blob.as_slice();
                signature_blob(
                    alloc,
                    blob,
                    key.private.as_slice(),
                    algorithm,
                    hash.as_bytes(),
                )
            }
            None => Ok(None),
        };
        match signed {
            Ok(Some(signature)) => Ok(signature),
            Ok(None) => {
                self.refused_sign = one_more(self.refused_sign);
                Err(Refusal::Refused)
            }
            Err(_) => Err(Refusal::Memory),
        }
    }
}

impl HostKeys for RsaHosts {
    ghost use Rattle.std.specs.Prelude.{◌≡◌};
    ghost use Rattle.ssh_modp.specs.Hosts.{KnowsAll, RsaMakes, SignsAll, is_known};
    ghost use Rattle.ssh_modp.specs.Rsa.{rsa_accepts};

    ghost accepts = { λ v. rsa_accepts };

    ghost trusts = { λ v. is_known v.known };

    ghost makes = { RsaMakes };

    ghost lawful = { λ v s. Unit {0} };

    ghost signs = { λ v later s. SignsAll v.key s.server };

    ghost judges = { λ v later s. KnowsAll v.known s.server };

    ghost refused_sign = { λ v. v.refused_sign };

    ghost refused_verify = { λ v. v.refused_verify };

    ghost refused_check = { λ v. v.refused_check };

    ghost calls = { λ v. v.calls };

    ghost answered = { λ v known n. true };

    ghost signs_lawful = { λ v later s o. tt };

    ghost judges_lawful = { λ v later s o. tt };

    ghost judges_trusts = { λ v later s host key o p. o host key p };

    ghost judges_accepts = { λ v later s host hash signature o m. m };

    fn sign(
        &mut self,
        alloc: Global,
        key: &HostKey,
        algorithm: Algorithm,
        hash: &HashValue,
    ) -> Result<Blob, Refusal>
        ensures after { AskedToSign self.old self.new result }
        ensures values { IfOk result (λ v. IsValue v) }
        ensures small { IfOk result (λ v. IsSmall v) }
        ensures right { IfOk result (λ b. IfSome self.old.key (λ k. accepts_blobs k.blob algorithm hash.now b ≡ true)) }
        ensures refused { IsRefused result
            → IfSome self.old.key (λ k. LacksSignature k.blob k.private algorithm hash.now) }
        ensures made { (s : Setup) (host : ServerHost) → SignsAll self.old.key s.server
            → Presents s.server host key.now algorithm
            → IfOk result (λ v. RsaMakes s.server host hash.now (judged v)) }
        ensures never { (s : Setup) (host : ServerHost) → SignsAll self.old.key s.server
            → Presents s.server host key.now algorithm → IsRefused result → ⊥ }
    {
        self.sign_hash(alloc, algorithm, hash)
    }

    fn verify(
        &mut self,
        alloc: Global,
        host: &ServerHost,
        hash: &HashValue,
        signature: &[u8],
    ) -> Result<(), Refusal>
        ensures after { AskedToVerify self.old self.new result }
        ensures right { OnOk result (rsa_accepts host.now hash.now signature.now ≡ true) }
        ensures wrong { IsRefused result → rsa_accepts host.now hash.now signature.now ≡ false }
    {
        self.calls = one_more(self.calls);
        match accepts(
            alloc,
            host.blob.as_slice(),
            host.algorithm,
            hash.as_bytes(),
            signature,
        ) {
            Ok(true) => Ok(()),
            Ok(false) => {
                self.refused_verify = one_more(self.refused_verify);
                Err(Refusal::Refused)
            }
            Err(_) => Err(Refusal::Memory),
        }
    }

    fn check(&mut self, _alloc: Global, host: &ServerHost) -> Result<(), Refusal>
        ensures after { AskedToCheck self.old self.new result }
        ensures known { result ≡ Ok tt → is_known self.old.known host.now ≡ true }
        ensures unknown { IsRefused result → is_known self.old.known host.now ≡ false }
        ensures err { IfErr result (λ e. e ≡ Refused) }
    {
        self.calls = one_more(self.calls);
        if is_known(self.known.as_slice(), host) {
            return Ok(());
        }
        self.refused_check = one_more(self.refused_check);
        Err(Refusal::Refused)
    }
}

/// Whether the host's blob is known.
fn is_known(known: &[Blob], host: &ServerHost) -> bool
    ensures { result ≡ is_known known.now host.now }
{
    known
        .iter()
        .any(|blob| blob.as_slice() == host.blob.as_slice())
}
