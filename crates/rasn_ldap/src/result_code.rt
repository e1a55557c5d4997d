// Written by `soqavise generate` from the ASN.1 of LDAP: change that, and write it again.
//! `ResultCode ::= ENUMERATED { success(0), operationsError(1), protocolError(2),
//! timeLimitExceeded(3), sizeLimitExceeded(4), compareFalse(5), compareTrue(6),
//! authMethodNotSupported(7), strongerAuthRequired(8), referral(10), adminLimitExceeded(11),
//! unavailableCriticalExtension(12), confidentialityRequired(13), saslBindInProgress(14),
//! noSuchAttribute(16), undefinedAttributeType(17), inappropriateMatching(18),
//! constraintViolation(19), attributeOrValueExists(20), invalidAttributeSyntax(21),
//! noSuchObject(32), aliasProblem(33), invalidDNSyntax(34), aliasDereferencingProblem(36),
//! inappropriateAuthentication(48), invalidCredentials(49), insufficientAccessRights(50), busy(51),
//! unavailable(52), unwillingToPerform(53), loopDetect(54), namingViolation(64),
//! objectClassViolation(65), notAllowedOnNonLeaf(66), notAllowedOnRDN(67), entryAlreadyExists(68),
//! objectClassModsProhibited(69), affectsMultipleDSAs(71), other(80), ... }`
use rasn::prelude::*;

/// `ResultCode ::= ENUMERATED { success(0), operationsError(1), protocolError(2),
/// timeLimitExceeded(3), sizeLimitExceeded(4), compareFalse(5), compareTrue(6),
/// authMethodNotSupported(7), strongerAuthRequired(8), referral(10), adminLimitExceeded(11),
/// unavailableCriticalExtension(12), confidentialityRequired(13), saslBindInProgress(14),
/// noSuchAttribute(16), undefinedAttributeType(17), inappropriateMatching(18),
/// constraintViolation(19), attributeOrValueExists(20), invalidAttributeSyntax(21),
/// noSuchObject(32), aliasProblem(33), invalidDNSyntax(34), aliasDereferencingProblem(36),
/// inappropriateAuthentication(48), invalidCredentials(49), insufficientAccessRights(50), busy(51),
/// unavailable(52), unwillingToPerform(53), loopDetect(54), namingViolation(64),
/// objectClassViolation(65), notAllowedOnNonLeaf(66), notAllowedOnRDN(67), entryAlreadyExists(68),
/// objectClassModsProhibited(69), affectsMultipleDSAs(71), other(80), ... }`
pub type ResultCode = Extensible<ResultCodeName>;

/// The names of the numbers.
#[derive(Clone, Copy, Debug, PartialEq, Eq, Drop)]
pub enum ResultCodeName {
    /// `success (0)`
    Success,
    /// `operationsError (1)`
    OperationsError,
    /// `protocolError (2)`
    ProtocolError,
    /// `timeLimitExceeded (3)`
    TimeLimitExceeded,
    /// `sizeLimitExceeded (4)`
    SizeLimitExceeded,
    /// `compareFalse (5)`
    CompareFalse,
    /// `compareTrue (6)`
    CompareTrue,
    /// `authMethodNotSupported (7)`
    AuthMethodNotSupported,
    /// `strongerAuthRequired (8)`
    StrongerAuthRequired,
    /// `referral (10)`
    Referral,
    /// `adminLimitExceeded (11)`
    AdminLimitExceeded,
    /// `unavailableCriticalExtension (12)`
    UnavailableCriticalExtension,
    /// `confidentialityRequired (13)`
    ConfidentialityRequired,
    /// `saslBindInProgress (14)`
    SaslBindInProgress,
    /// `noSuchAttribute (16)`
    NoSuchAttribute,
    /// `undefinedAttributeType (17)`
    UndefinedAttributeType,
    /// `inappropriateMatching (18)`
    InappropriateMatching,
    /// `constraintViolation (19)`
    ConstraintViolation,
    /// `attributeOrValueExists (20)`
    AttributeOrValueExists,
    /// `invalidAttributeSyntax (21)`
    InvalidAttributeSyntax,
    /// `noSuchObject (32)`
    NoSuchObject,
    /// `aliasProblem (33)`
    AliasProblem,
    /// `invalidDNSyntax (34)`
    InvalidDnSyntax,
    /// `aliasDereferencingProblem (36)`
    AliasDereferencingProblem,
    /// `inappropriateAuthentication (48)`
    InappropriateAuthentication,
    /// `invalidCredentials (49)`
    InvalidCredentials,
    /// `insufficientAccessRights (50)`
    InsufficientAccessRights,
    /// `busy (51)`
    Busy,
    /// `unavailable (52)`
    Unavailable,
    /// `unwillingToPerform (53)`
    UnwillingToPerform,
    /// `loopDetect (54)`
    LoopDetect,
    /// `namingViolation (64)`
    NamingViolation,
    /// `objectClassViolation (65)`
    ObjectClassViolation,
    /// `notAllowedOnNonLeaf (66)`
    NotAllowedOnNonLeaf,
    /// `notAllowedOnRDN (67)`
    NotAllowedOnRdn,
    /// `entryAlreadyExists (68)`
    EntryAlreadyExists,
    /// `objectClassModsProhibited (69)`
    ObjectClassModsProhibited,
    /// `affectsMultipleDSAs (71)`
    AffectsMultipleDsas,
    /// `other (80)`
    Other,
}

impl Enumerated for ResultCodeName {
    ghost use Rattle.std.specs.Prelude.{pos, refl, [], ◌∷◌};
    ghost use Rattle.rasn_types.specs.OwnEnumerated.{all_listed, all_distinct};
    ghost use Rattle.rasn_ldap.specs.contracts.result_code.ResultCodeName.{enum as own_enum};
    ghost use Rattle.rasn_ldap.specs.declared.result_code.ResultCodeName.TheVariants.{Success, OperationsError, ProtocolError, TimeLimitExceeded, SizeLimitExceeded, CompareFalse, CompareTrue, AuthMethodNotSupported, StrongerAuthRequired, Referral, AdminLimitExceeded, UnavailableCriticalExtension, ConfidentialityRequired, SaslBindInProgress, NoSuchAttribute, UndefinedAttributeType, InappropriateMatching, ConstraintViolation, AttributeOrValueExists, InvalidAttributeSyntax, NoSuchObject, AliasProblem, InvalidDnSyntax, AliasDereferencingProblem, InappropriateAuthentication, InvalidCredentials, InsufficientAccessRights, Busy, Unavailable, UnwillingToPerform, LoopDetect, NamingViolation, ObjectClassViolation, NotAllowedOnNonLeaf, NotAllowedOnRdn, EntryAlreadyExists, ObjectClassModsProhibited, AffectsMultipleDsas, Other};

    ghost known = { pos 0 ∷ pos 1 ∷ pos 2 ∷ pos 3 ∷ pos 4 ∷ pos 5 ∷ pos 6 ∷ pos 7 ∷ pos 8 ∷ pos 10 ∷ pos 11 ∷ pos 12 ∷ pos 13 ∷ pos 14 ∷ pos 16 ∷ pos 17 ∷ pos 18 ∷ pos 19 ∷ pos 20 ∷ pos 21 ∷ pos 32 ∷ pos 33 ∷ pos 34 ∷ pos 36 ∷ pos 48 ∷ pos 49 ∷ pos 50 ∷ pos 51 ∷ pos 52 ∷ pos 53 ∷ pos 54 ∷ pos 64 ∷ pos 65 ∷ pos 66 ∷ pos 67 ∷ pos 68 ∷ pos 69 ∷ pos 71 ∷ pos 80 ∷ [] };

    ghost number = { elim [ Success ↦ pos 0 | OperationsError ↦ pos 1 | ProtocolError ↦ pos 2 | TimeLimitExceeded ↦ pos 3 | SizeLimitExceeded ↦ pos 4 | CompareFalse ↦ pos 5 | CompareTrue ↦ pos 6 | AuthMethodNotSupported ↦ pos 7 | StrongerAuthRequired ↦ pos 8 | Referral ↦ pos 10 | AdminLimitExceeded ↦ pos 11 | UnavailableCriticalExtension ↦ pos 12 | ConfidentialityRequired ↦ pos 13 | SaslBindInProgress ↦ pos 14 | NoSuchAttribute ↦ pos 16 | UndefinedAttributeType ↦ pos 17 | InappropriateMatching ↦ pos 18 | ConstraintViolation ↦ pos 19 | AttributeOrValueExists ↦ pos 20 | InvalidAttributeSyntax ↦ pos 21 | NoSuchObject ↦ pos 32 | AliasProblem ↦ pos 33 | InvalidDnSyntax ↦ pos 34 | AliasDereferencingProblem ↦ pos 36 | InappropriateAuthentication ↦ pos 48 | InvalidCredentials ↦ pos 49 | InsufficientAccessRights ↦ pos 50 | Busy ↦ pos 51 | Unavailable ↦ pos 52 | UnwillingToPerform ↦ pos 53 | LoopDetect ↦ pos 54 | NamingViolation ↦ pos 64 | ObjectClassViolation ↦ pos 65 | NotAllowedOnNonLeaf ↦ pos 66 | NotAllowedOnRdn ↦ pos 67 | EntryAlreadyExists ↦ pos 68 | ObjectClassModsProhibited ↦ pos 69 | AffectsMultipleDsas ↦ pos 71 | Other ↦ pos 80 ] };

    ghost listed = { all_listed own_enum (elim [ Success ↦ pos 0 | OperationsError ↦ pos 1 | ProtocolError ↦ pos 2 | TimeLimitExceeded ↦ pos 3 | SizeLimitExceeded ↦ pos 4 | CompareFalse ↦ pos 5 | CompareTrue ↦ pos 6 | AuthMethodNotSupported ↦ pos 7 | StrongerAuthRequired ↦ pos 8 | Referral ↦ pos 10 | AdminLimitExceeded ↦ pos 11 | UnavailableCriticalExtension ↦ pos 12 | ConfidentialityRequired ↦ pos 13 | SaslBindInProgress ↦ pos 14 | NoSuchAttribute ↦ pos 16 | UndefinedAttributeType ↦ pos 17 | InappropriateMatching ↦ pos 18 | ConstraintViolation ↦ pos 19 | AttributeOrValueExists ↦ pos 20 | InvalidAttributeSyntax ↦ pos 21 | NoSuchObject ↦ pos 32 | AliasProblem ↦ pos 33 | InvalidDnSyntax ↦ pos 34 | AliasDereferencingProblem ↦ pos 36 | InappropriateAuthentication ↦ pos 48 | InvalidCredentials ↦ pos 49 | InsufficientAccessRights ↦ pos 50 | Busy ↦ pos 51 | Unavailable ↦ pos 52 | UnwillingToPerform ↦ pos 53 | LoopDetect ↦ pos 54 | NamingViolation ↦ pos 64 | ObjectClassViolation ↦ pos 65 | NotAllowedOnNonLeaf ↦ pos 66 | NotAllowedOnRdn ↦ pos 67 | EntryAlreadyExists ↦ pos 68 | ObjectClassModsProhibited ↦ pos 69 | AffectsMultipleDsas ↦ pos 71 | Other ↦ pos 80 ]) (pos 0 ∷ pos 1 ∷ pos 2 ∷ pos 3 ∷ pos 4 ∷ pos 5 ∷ pos 6 ∷ pos 7 ∷ pos 8 ∷ pos 10 ∷ pos 11 ∷ pos 12 ∷ pos 13 ∷ pos 14 ∷ pos 16 ∷ pos 17 ∷ pos 18 ∷ pos 19 ∷ pos 20 ∷ pos 21 ∷ pos 32 ∷ pos 33 ∷ pos 34 ∷ pos 36 ∷ pos 48 ∷ pos 49 ∷ pos 50 ∷ pos 51 ∷ pos 52 ∷ pos 53 ∷ pos 54 ∷ pos 64 ∷ pos 65 ∷ pos 66 ∷ pos 67 ∷ pos 68 ∷ pos 69 ∷ pos 71 ∷ pos 80 ∷ []) refl };

    ghost distinct = { all_distinct own_enum _ refl };

    ghost fits = { refl };

    fn discriminant(&self) -> isize {
        match self {
            ResultCodeName::Success => 0,
            ResultCodeName::OperationsError => 1,
            ResultCodeName::ProtocolError => 2,
            ResultCodeName::TimeLimitExceeded => 3,
            ResultCodeName::SizeLimitExceeded => 4,
            ResultCodeName::CompareFalse => 5,
            ResultCodeName::CompareTrue => 6,
            ResultCodeName::AuthMethodNotSupported => 7,
            ResultCodeName::StrongerAuthRequired => 8,
            ResultCodeName::Referral => 10,
            ResultCodeName::AdminLimitExceeded => 11,
            ResultCodeName::UnavailableCriticalExtension => 12,
            ResultCodeName::ConfidentialityRequired => 13,
            ResultCodeName::SaslBindInProgress => 14,
            ResultCodeName::NoSuchAttribute => 16,
            ResultCodeName::UndefinedAttributeType => 17,
            ResultCodeName::InappropriateMatching => 18,
            ResultCodeName::ConstraintViolation => 19,
            ResultCodeName::AttributeOrValueExists => 20,
            ResultCodeName::InvalidAttributeSyntax => 21,
            ResultCodeName::NoSuchObject => 32,
            ResultCodeName::AliasProblem => 33,
            ResultCodeName::InvalidDnSyntax => 34,
            ResultCodeName::AliasDereferencingProblem => 36,
            ResultCodeName::InappropriateAuthentication => 48,
            ResultCodeName::InvalidCredentials => 49,
            ResultCodeName::InsufficientAccessRights => 50,
            ResultCodeName::Busy => 51,
            ResultCodeName::Unavailable => 52,
            ResultCodeName::UnwillingToPerform => 53,
            ResultCodeName::LoopDetect => 54,
            ResultCodeName::NamingViolation => 64,
            ResultCodeName::ObjectClassViolation => 65,
            ResultCodeName::NotAllowedOnNonLeaf => 66,
            ResultCodeName::NotAllowedOnRdn => 67,
            ResultCodeName::EntryAlreadyExists => 68,
            ResultCodeName::ObjectClassModsProhibited => 69,
            ResultCodeName::AffectsMultipleDsas => 71,
            ResultCodeName::Other => 80,
        }
    }

    fn from_discriminant(discriminant: isize) -> Option<ResultCodeName> {
        match discriminant {
            0 => Some(ResultCodeName::Success),
            1 => Some(ResultCodeName::OperationsError),
            2 => Some(ResultCodeName::ProtocolError),
            3 => Some(ResultCodeName::TimeLimitExceeded),
            4 => Some(ResultCodeName::SizeLimitExceeded),
            5 => Some(ResultCodeName::CompareFalse),
            6 => Some(ResultCodeName::CompareTrue),
            7 => Some(ResultCodeName::AuthMethodNotSupported),
            8 => Some(ResultCodeName::StrongerAuthRequired),
            10 => Some(ResultCodeName::Referral),
            11 => Some(ResultCodeName::AdminLimitExceeded),
            12 => Some(ResultCodeName::UnavailableCriticalExtension),
            13 => Some(ResultCodeName::ConfidentialityRequired),
            14 => Some(ResultCodeName::SaslBindInProgress),
            16 => Some(ResultCodeName::NoSuchAttribute),
            17 => Some(ResultCodeName::UndefinedAttributeType),
            18 => Some(ResultCodeName::InappropriateMatching),
            19 => Some(ResultCodeName::ConstraintViolation),
            20 => Some(ResultCodeName::AttributeOrValueExists),
            21 => Some(ResultCodeName::InvalidAttributeSyntax),
            32 => Some(ResultCodeName::NoSuchObject),
            33 => Some(ResultCodeName::AliasProblem),
            34 => Some(ResultCodeName::InvalidDnSyntax),
            36 => Some(ResultCodeName::AliasDereferencingProblem),
            48 => Some(ResultCodeName::InappropriateAuthentication),
            49 => Some(ResultCodeName::InvalidCredentials),
            50 => Some(ResultCodeName::InsufficientAccessRights),
            51 => Some(ResultCodeName::Busy),
            52 => Some(ResultCodeName::Unavailable),
            53 => Some(ResultCodeName::UnwillingToPerform),
            54 => Some(ResultCodeName::LoopDetect),
            64 => Some(ResultCodeName::NamingViolation),
            65 => Some(ResultCodeName::ObjectClassViolation),
            66 => Some(ResultCodeName::NotAllowedOnNonLeaf),
            67 => Some(ResultCodeName::NotAllowedOnRdn),
            68 => Some(ResultCodeName::EntryAlreadyExists),
            69 => Some(ResultCodeName::ObjectClassModsProhibited),
            71 => Some(ResultCodeName::AffectsMultipleDsas),
            80 => Some(ResultCodeName::Other),
            _ => None,
        }
    }
}
