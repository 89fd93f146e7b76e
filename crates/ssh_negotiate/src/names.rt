//! What each constant of `kex` is, for proofs above to cite.

ghost use Rattle.std.specs.Prelude.{◌≡◌};
ghost use Rattle.ssh_negotiate.specs.Tables.{kex_names};
ghost use Rattle.ssh_negotiate.specs.declared.kex.Name.TheVariants.{Mlkem768X25519Sha256, Curve25519, Curve25519PreRfc8731};
ghost use Rattle.ssh_negotiate.specs.declared.kex.Name.TheVariants.{DhGexSha1, DhGexSha256, DhG1Sha1, DhG14Sha1, DhG14Sha256};
ghost use Rattle.ssh_negotiate.specs.declared.kex.Name.TheVariants.{DhG15Sha512, DhG16Sha512, DhG17Sha512, DhG18Sha512};
ghost use Rattle.ssh_negotiate.specs.declared.kex.Name.TheVariants.{EcdhSha2Nistp256, EcdhSha2Nistp384, EcdhSha2Nistp521};
ghost use Rattle.ssh_negotiate.specs.declared.kex.Name.TheVariants.{NoKex, ExtInfoC, ExtInfoS, StrictC, StrictS};

use crate::kex::{
    ALL_KEX_ALGORITHMS, CURVE25519, CURVE25519_PRE_RFC_8731, DH_G1_SHA1, DH_G14_SHA1,
    DH_G14_SHA256, DH_G15_SHA512, DH_G16_SHA512, DH_G17_SHA512, DH_G18_SHA512, DH_GEX_SHA1,
    DH_GEX_SHA256, ECDH_SHA2_NISTP256, ECDH_SHA2_NISTP384, ECDH_SHA2_NISTP521,
    EXTENSION_OPENSSH_STRICT_KEX_AS_CLIENT, EXTENSION_OPENSSH_STRICT_KEX_AS_SERVER,
    EXTENSION_SUPPORT_AS_CLIENT, EXTENSION_SUPPORT_AS_SERVER, MLKEM768X25519_SHA256, NONE,
};

/// The names of key exchanges, the extension names, and all key exchanges.
pub fn kex_names()
    ensures curves { (MLKEM768X25519_SHA256 ≡ Mlkem768X25519Sha256) × (CURVE25519 ≡ Curve25519)
        × (CURVE25519_PRE_RFC_8731 ≡ Curve25519PreRfc8731) }
    ensures gex { (DH_GEX_SHA1 ≡ DhGexSha1) × (DH_GEX_SHA256 ≡ DhGexSha256) }
    ensures groups { (DH_G1_SHA1 ≡ DhG1Sha1) × (DH_G14_SHA1 ≡ DhG14Sha1) × (DH_G14_SHA256 ≡ DhG14Sha256)
        × (DH_G15_SHA512 ≡ DhG15Sha512) × (DH_G16_SHA512 ≡ DhG16Sha512) × (DH_G17_SHA512 ≡ DhG17Sha512)
        × (DH_G18_SHA512 ≡ DhG18Sha512) }
    ensures ecdh { (ECDH_SHA2_NISTP256 ≡ EcdhSha2Nistp256) × (ECDH_SHA2_NISTP384 ≡ EcdhSha2Nistp384)
        × (ECDH_SHA2_NISTP521 ≡ EcdhSha2Nistp521) }
    ensures none { NONE ≡ NoKex }
    ensures info { (EXTENSION_SUPPORT_AS_CLIENT ≡ ExtInfoC) × (EXTENSION_SUPPORT_AS_SERVER ≡ ExtInfoS) }
    ensures strict { (EXTENSION_OPENSSH_STRICT_KEX_AS_CLIENT ≡ StrictC)
        × (EXTENSION_OPENSSH_STRICT_KEX_AS_SERVER ≡ StrictS) }
    ensures all { ALL_KEX_ALGORITHMS ≡ kex_names }
{}
