//! Which configurations may not be used.

ghost use Rattle.std.specs.Prelude.{◌≡◌, ◌&&◌, ◌||◌, nat_eq, nat_le, nat_lt, not, Some, codes, length};
ghost use Rattle.std.specs.List.{list_any, starts_with};
ghost use Rattle.ssh_kex.specs.Setting.{offers_of};
ghost use Rattle.ssh_negotiate.specs.declared.preferred.HostCertificate.{HostCertificate};
ghost use Rattle.ssh_negotiate.specs.declared.preferred.HostKey.{HostKey};
ghost use Rattle.ssh_rules.specs.Valid as valid;
ghost use Rattle.ssh_rules.specs.Valid.{is_good_limit as good_limit, is_id_line_text, is_no_kex, longest_blob, some_blob_long, some_list_long};
ghost use Rattle.ssh_wire.specs.Lines.{is_line_end};
ghost use Rattle.ssh_wire.specs.declared.side.Side.TheVariants.{Client as client_side, Server as server_side};

use ssh_kex::{Config, GexParams};
use ssh_negotiate::{HostCertificate, HostKey, Preferred, can_be_advertised, kex};
use ssh_wire::{ConfigFault, Limits, Side, SshId, without_last_cr};

/// The longest version line with its ending, in bytes (RFC 4253 section 4.2).
const LONGEST_LINE: usize = 255;

/// The greatest byte limit.
const MOST_BYTES: usize = 1 << 30;

/// The longest blob of a key or a certificate, in bytes.
const LONGEST_BLOB: usize = 65536;

/// The first test that refuses a side's configuration, if one does: its version line, its byte limits, its group sizes,
/// the key exchange `none`, its lists, its blobs, as `Transport::client` says of each. It takes no memory.
#[tactic(auto, unfolding(ssh_rules::specs::Valid::config_fault))]
pub fn config_fault(side: Side, config: &Config) -> Option<ConfigFault>
    ensures { result ≡ valid.config_fault side config.now }
{
    if !is_good_id(&config.id) {
        return Some(ConfigFault::Id);
    }
    if !are_good_limits(&config.limits) {
        return Some(ConfigFault::Limit);
    }
    if !are_rising(&config.gex) {
        return Some(ConfigFault::GroupSizes);
    }
    if offers_none(&config.preferred) {
        return Some(ConfigFault::KexNone);
    }
    if !are_good_lists(side, config) {
        return Some(ConfigFault::NameList);
    }
    if has_long_blob(config) {
        return Some(ConfigFault::HostBlob);
    }
    None
}

/// The first test that refuses one of two sides' configurations, the client's tested first, if one does. It takes no
/// memory.
pub fn first_config_fault(client: &Config, server: &Config) -> Option<ConfigFault>
    ensures { result ≡ valid.first_config_fault (valid.config_fault client_side client.now)
        (valid.config_fault server_side server.now) }
{
    match config_fault(Side::Client, client) {
        Some(fault) => Some(fault),
        None => config_fault(Side::Server, server),
    }
}

/// Whether a version line begins as one does, ends no line within, and has at most 255 bytes as it is written.
fn is_good_id(id: &SshId) -> bool
    ensures { result ≡ valid.is_good_id id.now }
{
    match id {
        SshId::Standard(text) => {
            let text = text.as_str().as_bytes();
            text.len() <= LONGEST_LINE - 2 && is_line_text(text)
        }
        SshId::Raw(text) => {
            let line = text.as_str().as_bytes();
            match line.split_last() {
                Some((last, front)) => {
                    *last == b'\n'
                        && line.len() <= LONGEST_LINE
                        && is_line_text(without_last_cr(front))
                }
                None => false,
            }
        }
    }
}

/// Whether a text begins as a version line does, and ends no line within.
fn is_line_text(text: &[u8]) -> bool
    ensures { result ≡ is_id_line_text (Some text.now) }
{
    names_protocol(text) && !has_line_end(text)
}

/// Whether a text begins as a version line does.
fn names_protocol(text: &[u8]) -> bool
    ensures { result ≡ (starts_with nat_eq text.now (codes "SSH-2.0-") || starts_with nat_eq text.now
        (codes "SSH-1.99-")) }
{
    text.starts_with(b"SSH-2.0-") || text.starts_with(b"SSH-1.99-")
}

/// Whether a CR or an LF stands in a text.
fn has_line_end(text: &[u8]) -> bool
    ensures { result ≡ list_any is_line_end text.now }
{
    text.iter().any(|b| *b == b'\r' || *b == b'\n')
}

/// Whether both byte limits are from 1 to 2^30.
fn are_good_limits(limits: &Limits) -> bool
    ensures { result ≡ (good_limit limits.now.rekey_write_limit && good_limit limits.now.rekey_read_limit) }
{
    is_good_limit(limits.rekey_write_limit) && is_good_limit(limits.rekey_read_limit)
}

fn is_good_limit(bytes: usize) -> bool
    ensures { result ≡ good_limit bytes }
{
    1 <= bytes && bytes <= MOST_BYTES
}

/// Whether sizes don't fall.
fn are_rising(sizes: &GexParams) -> bool
    ensures { result ≡ (nat_le sizes.now.min_group_size sizes.now.preferred_group_size && nat_le
        sizes.now.preferred_group_size sizes.now.max_group_size) }
{
    sizes.min_group_size <= sizes.preferred_group_size
        && sizes.preferred_group_size <= sizes.max_group_size
}

/// Whether the name that stands for no exchange of values is among them.
fn offers_none(preferred: &Preferred) -> bool
    ensures { result ≡ list_any is_no_kex preferred.now.kex }
{
    preferred
        .kex
        .iter()
        .any(|name| matches!(*name, kex::Name::NoKex))
}

/// Whether each list that the side advertises has at most 1024 names and 16384 bytes.
fn are_good_lists(side: Side, config: &Config) -> bool
    ensures { result ≡ not (some_list_long (offers_of side config.now)) }
{
    match side {
        Side::Client => can_be_advertised(&config.preferred, None),
        Side::Server => can_be_advertised(&config.preferred, Some(&config.host)),
    }
}

/// Whether some blob of a key or a certificate has over 65536 bytes.
fn has_long_blob(config: &Config) -> bool
    ensures { result ≡ some_blob_long config.now }
{
    has_long_key(config.host.keys.as_slice())
        || has_long_certificate(config.host.certificates.as_slice())
}

fn has_long_key(keys: &[HostKey]) -> bool
    ensures { result ≡ list_any (λ (k : HostKey). nat_lt longest_blob (length k.blob)) keys.now }
{
    keys.iter()
        .any(|key| key.blob.as_slice().len() > LONGEST_BLOB)
}

fn has_long_certificate(certificates: &[HostCertificate]) -> bool
    ensures { result ≡ list_any (λ (c : HostCertificate). nat_lt longest_blob (length c.blob)) certificates.now }
{
    certificates.iter().any(|certificate| certificate.blob.as_slice().len() > LONGEST_BLOB)
}
