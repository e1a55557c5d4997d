//! The versions of messages, to compare with what `Integer::to_i128` returns of `version`, and with
//! the number in `msg_version`.

/// version-1(0) (RFC 1157, 4).
pub const VERSION_1: i128 = 0;

/// version(1) (RFC 1901, 3).
pub const VERSION_2C: i128 = 1;

/// snmpv3(3) (RFC 3412, 6).
pub const VERSION_3: u32 = 3;
