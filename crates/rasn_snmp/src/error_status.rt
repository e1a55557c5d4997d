//! The named numbers of `error-status` (RFC 3416, 3), to compare with what `Integer::to_i128`
//! returns of it.

/// noError(0)
pub const NO_ERROR: i128 = 0;

/// tooBig(1)
pub const TOO_BIG: i128 = 1;

/// noSuchName(2)
pub const NO_SUCH_NAME: i128 = 2;

/// badValue(3)
pub const BAD_VALUE: i128 = 3;

/// readOnly(4)
pub const READ_ONLY: i128 = 4;

/// genErr(5)
pub const GEN_ERR: i128 = 5;

/// noAccess(6)
pub const NO_ACCESS: i128 = 6;

/// wrongType(7)
pub const WRONG_TYPE: i128 = 7;

/// wrongLength(8)
pub const WRONG_LENGTH: i128 = 8;

/// wrongEncoding(9)
pub const WRONG_ENCODING: i128 = 9;

/// wrongValue(10)
pub const WRONG_VALUE: i128 = 10;

/// noCreation(11)
pub const NO_CREATION: i128 = 11;

/// inconsistentValue(12)
pub const INCONSISTENT_VALUE: i128 = 12;

/// resourceUnavailable(13)
pub const RESOURCE_UNAVAILABLE: i128 = 13;

/// commitFailed(14)
pub const COMMIT_FAILED: i128 = 14;

/// undoFailed(15)
pub const UNDO_FAILED: i128 = 15;

/// authorizationError(16)
pub const AUTHORIZATION_ERROR: i128 = 16;

/// notWritable(17)
pub const NOT_WRITABLE: i128 = 17;

/// inconsistentName(18)
pub const INCONSISTENT_NAME: i128 = 18;
