//! Message numbers (RFC 4250 section 4.1, RFC 4253, RFC 4252, RFC 4254) and the reasons of a channel that
//! isn't opened (RFC 4254 section 5.1).

pub const DISCONNECT: u8 = 1;

pub const IGNORE: u8 = 2;

pub const UNIMPLEMENTED: u8 = 3;

pub const DEBUG: u8 = 4;

pub const SERVICE_REQUEST: u8 = 5;

pub const SERVICE_ACCEPT: u8 = 6;

pub const EXT_INFO: u8 = 7;

pub const KEXINIT: u8 = 20;

pub const NEWKEYS: u8 = 21;

pub const KEX_ECDH_INIT: u8 = 30;

pub const KEX_ECDH_REPLY: u8 = 31;

pub const KEX_DH_GEX_REQUEST: u8 = 34;

pub const KEX_DH_GEX_GROUP: u8 = 31;

pub const KEX_DH_GEX_INIT: u8 = 32;

pub const KEX_DH_GEX_REPLY: u8 = 33;

pub const KEX_HYBRID_INIT: u8 = 30;

pub const KEX_HYBRID_REPLY: u8 = 31;

pub const USERAUTH_REQUEST: u8 = 50;

pub const USERAUTH_FAILURE: u8 = 51;

pub const USERAUTH_SUCCESS: u8 = 52;

pub const USERAUTH_BANNER: u8 = 53;

pub const USERAUTH_INFO_REQUEST: u8 = 60;

pub const USERAUTH_PK_OK: u8 = 60;

pub const USERAUTH_INFO_REQUEST_OR_USERAUTH_PK_OK: u8 = 60;

pub const USERAUTH_INFO_RESPONSE: u8 = 61;

pub const USERAUTH_GSSAPI_RESPONSE: u8 = 60;

pub const USERAUTH_GSSAPI_TOKEN: u8 = 61;

pub const USERAUTH_GSSAPI_EXCHANGE_COMPLETE: u8 = 63;

pub const USERAUTH_GSSAPI_ERROR: u8 = 64;

pub const USERAUTH_GSSAPI_ERRTOK: u8 = 65;

pub const USERAUTH_GSSAPI_MIC: u8 = 66;

pub const GLOBAL_REQUEST: u8 = 80;

pub const REQUEST_SUCCESS: u8 = 81;

pub const REQUEST_FAILURE: u8 = 82;

pub const CHANNEL_OPEN: u8 = 90;

pub const CHANNEL_OPEN_CONFIRMATION: u8 = 91;

pub const CHANNEL_OPEN_FAILURE: u8 = 92;

pub const CHANNEL_WINDOW_ADJUST: u8 = 93;

pub const CHANNEL_DATA: u8 = 94;

pub const CHANNEL_EXTENDED_DATA: u8 = 95;

pub const CHANNEL_EOF: u8 = 96;

pub const CHANNEL_CLOSE: u8 = 97;

pub const CHANNEL_REQUEST: u8 = 98;

pub const CHANNEL_SUCCESS: u8 = 99;

pub const CHANNEL_FAILURE: u8 = 100;

pub const SSH_OPEN_ADMINISTRATIVELY_PROHIBITED: u32 = 1;

pub const SSH_OPEN_CONNECT_FAILED: u32 = 2;

pub const SSH_OPEN_UNKNOWN_CHANNEL_TYPE: u32 = 3;

pub const SSH_OPEN_RESOURCE_SHORTAGE: u32 = 4;
