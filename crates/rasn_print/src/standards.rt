//! The texts of the modules of this repository: `.ci/standards` writes this file from
//! `modules/` and `contents.asn1`.

/// How many modules there are.
pub const COUNT: usize = 17;

/// The names of the modules, each with the number of its text.
pub const MODULES: &[(&str, usize)] = &[
    ("AsymmetricKeyPackageModuleV1", 11),
    ("AttributeCertificates", 0),
    ("CMP", 2),
    ("CMS", 3),
    ("CRMF", 2),
    ("CertificateExtensions", 4),
    ("Certificates", 1),
    ("Contents", 16),
    ("CryptographicMessageSyntax-2009", 11),
    ("CryptographicMessageSyntax-2010", 11),
    ("CryptographicMessageSyntax2004", 11),
    ("Kerberos", 5),
    ("KerberosV5Spec2", 11),
    ("Keys", 6),
    ("LDAP", 7),
    ("Lightweight-Directory-Access-Protocol-V3", 11),
    ("OCSP", 8),
    ("OCSP-2009", 11),
    ("OCSP-2013-08", 11),
    ("OCSP-2013-88", 11),
    ("OpenSSL", 9),
    ("PKCS-1", 11),
    ("PKCS-10", 11),
    ("PKCS-12", 11),
    ("PKCS-8", 11),
    ("PKCS12", 10),
    ("PKIX1Algorithms88", 11),
    ("PKIX1Explicit-2009", 11),
    ("PKIX1Explicit88", 11),
    ("PKIX1Implicit-2009", 11),
    ("PKIX1Implicit88", 11),
    ("PKIXAttributeCertificate", 11),
    ("PKIXAttributeCertificate-2008", 11),
    ("PKIXAttributeCertificate-2009", 11),
    ("PKIXCMP", 11),
    ("PKIXCMP-2009", 11),
    ("PKIXCRMF-2005", 11),
    ("PKIXCRMF-2009", 11),
    ("PKIXTSP", 11),
    ("RFC1157-SNMP", 11),
    ("Requests", 12),
    ("Revocation", 13),
    ("SNMP", 14),
    ("SNMPv2-PDU", 11),
    ("SNMPv3MessageSyntax", 11),
    ("TimeStamps", 15),
    ("USMSecurityParametersSyntax", 11),
];

/// For each text its number and those of the texts that its modules import from, directly or not.
pub const REACHED: [&[usize]; COUNT] = [
    &[0, 1, 4],
    &[1],
    &[0, 1, 2, 3, 4, 12, 13],
    &[0, 1, 3, 4, 13],
    &[1, 4],
    &[5],
    &[1, 6],
    &[7],
    &[1, 4, 8],
    &[1, 9],
    &[0, 1, 3, 4, 6, 10, 13],
    &[0, 1, 2, 3, 4, 5, 6, 7, 8, 10, 11, 12, 13, 14, 15],
    &[1, 12],
    &[1, 13],
    &[14],
    &[0, 1, 3, 4, 13, 15],
    &[0, 1, 3, 4, 6, 8, 13, 15, 16],
];

/// Returns the name of the file of the module with this number, and its text.
pub fn standard(number: usize) -> Option<(&'static str, &'static str)> {
    match number {
        0 => Some(("attribute_certificates.asn1", attribute_certificates())),
        1 => Some(("certificates.asn1", certificates())),
        2 => Some(("cmp.asn1", cmp())),
        3 => Some(("cms.asn1", cms())),
        4 => Some(("extensions.asn1", extensions())),
        5 => Some(("kerberos.asn1", kerberos())),
        6 => Some(("keys.asn1", keys())),
        7 => Some(("ldap.asn1", ldap())),
        8 => Some(("ocsp.asn1", ocsp())),
        9 => Some(("openssl.asn1", openssl())),
        10 => Some(("pkcs12.asn1", pkcs12())),
        11 => Some(("published.asn1", published())),
        12 => Some(("requests.asn1", requests())),
        13 => Some(("revocation.asn1", revocation())),
        14 => Some(("snmp.asn1", snmp())),
        15 => Some(("timestamps.asn1", timestamps())),
        16 => Some(("contents.asn1", contents())),
        _ => None,
    }
}

fn attribute_certificates() -> &'static str {
    "-- Attribute certificates (RFC 5755 4, and version 1 as RFC 5652 12 has it), laid out from the sections
-- of the standards.

AttributeCertificates DEFINITIONS IMPLICIT TAGS ::= BEGIN

IMPORTS
    AlgorithmIdentifier, CertificateSerialNumber, Extensions, UniqueIdentifier
        FROM Certificates
    Attribute, GeneralName, GeneralNames
        FROM CertificateExtensions;

-- RFC 5755 4.1
AttributeCertificate ::= SEQUENCE {
    acinfo                          AttributeCertificateInfo,
    signatureAlgorithm              AlgorithmIdentifier,
    signatureValue                  BIT STRING
}

AttributeCertificateInfo ::= SEQUENCE {
    version                         AttCertVersion,
    holder                          Holder,
    issuer                          AttCertIssuer,
    signature                       AlgorithmIdentifier,
    serialNumber                    CertificateSerialNumber,
    attrCertValidityPeriod          AttCertValidityPeriod,
    attributes                      SEQUENCE OF Attribute,
    issuerUniqueID                  UniqueIdentifier OPTIONAL,
    extensions                      Extensions OPTIONAL
}

AttCertVersion ::= INTEGER { v2(1) }

-- RFC 5755 4.2.2
Holder ::= SEQUENCE {
    baseCertificateID               [0] IssuerSerial OPTIONAL,
    entityName                      [1] GeneralNames OPTIONAL,
    objectDigestInfo                [2] ObjectDigestInfo OPTIONAL
}

ObjectDigestInfo ::= SEQUENCE {
    digestedObjectType              ENUMERATED {
        publicKey(0), publicKeyCert(1), otherObjectTypes(2)
    },
    otherObjectTypeID               OBJECT IDENTIFIER OPTIONAL,
    digestAlgorithm                 AlgorithmIdentifier,
    objectDigest                    BIT STRING
}

-- RFC 5755 4.2.3
AttCertIssuer ::= CHOICE {
    v1Form                          GeneralNames,
    v2Form                          [0] V2Form
}

V2Form ::= SEQUENCE {
    issuerName                      GeneralNames OPTIONAL,
    baseCertificateID               [0] IssuerSerial OPTIONAL,
    objectDigestInfo                [1] ObjectDigestInfo OPTIONAL
}

IssuerSerial ::= SEQUENCE {
    issuer                          GeneralNames,
    serial                          CertificateSerialNumber,
    issuerUID                       UniqueIdentifier OPTIONAL
}

-- RFC 5755 4.2.6
AttCertValidityPeriod ::= SEQUENCE {
    notBeforeTime                   GeneralizedTime,
    notAfterTime                    GeneralizedTime
}

-- RFC 5755 4.3.2
Targets ::= SEQUENCE OF Target

Target ::= CHOICE {
    targetName                      [0] EXPLICIT GeneralName,
    targetGroup                     [1] EXPLICIT GeneralName,
    targetCert                      [2] TargetCert
}

TargetCert ::= SEQUENCE {
    targetCertificate               IssuerSerial,
    targetName                      GeneralName OPTIONAL,
    certDigestInfo                  ObjectDigestInfo OPTIONAL
}

-- RFC 5755 4.4.1
SvceAuthInfo ::= SEQUENCE {
    service                         GeneralName,
    ident                           GeneralName,
    authInfo                        OCTET STRING OPTIONAL
}

-- RFC 5755 4.4.3
IetfAttrSyntax ::= SEQUENCE {
    policyAuthority                 [0] GeneralNames OPTIONAL,
    values                          SEQUENCE OF IetfAttrValue
}

IetfAttrValue ::= CHOICE {
    octets                          OCTET STRING,
    oid                             OBJECT IDENTIFIER,
    string                          UTF8String
}

-- RFC 5755 4.4.5
RoleSyntax ::= SEQUENCE {
    roleAuthority                   [0] GeneralNames OPTIONAL,
    roleName                        [1] GeneralName
}

-- RFC 5652 12.2
AttributeCertificateV1 ::= SEQUENCE {
    acInfo                          AttributeCertificateInfoV1,
    signatureAlgorithm              AlgorithmIdentifier,
    signature                       BIT STRING
}

AttributeCertificateInfoV1 ::= SEQUENCE {
    version                         INTEGER { v1(0) } DEFAULT v1,
    subject                         CHOICE {
        baseCertificateID               [0] IssuerSerial,
        subjectName                     [1] GeneralNames
    },
    issuer                          GeneralNames,
    signature                       AlgorithmIdentifier,
    serialNumber                    CertificateSerialNumber,
    attCertValidityPeriod           AttCertValidityPeriod,
    attributes                      SEQUENCE OF Attribute,
    issuerUniqueID                  UniqueIdentifier OPTIONAL,
    extensions                      Extensions OPTIONAL
}

END
"
}

fn certificates() -> &'static str {
    "-- Certificates (RFC 5280 4.1), laid out from the sections of the standard.
-- The names of attributes and extensions, and what these hold, aren't here: they are open types and octets of a certificate.

Certificates DEFINITIONS EXPLICIT TAGS ::= BEGIN

-- 4.1
Certificate ::= SEQUENCE {
    tbsCertificate          TBSCertificate,
    signatureAlgorithm      AlgorithmIdentifier,
    signatureValue          BIT STRING
}

-- 4.1.2
TBSCertificate ::= SEQUENCE {
    version                 [0] Version DEFAULT v1,
    serialNumber            CertificateSerialNumber,
    signature               AlgorithmIdentifier,
    issuer                  Name,
    validity                Validity,
    subject                 Name,
    subjectPublicKeyInfo    SubjectPublicKeyInfo,
    issuerUniqueID          [1] IMPLICIT UniqueIdentifier OPTIONAL,
    subjectUniqueID         [2] IMPLICIT UniqueIdentifier OPTIONAL,
    extensions              [3] Extensions OPTIONAL
}

-- 4.1.2.1
Version ::= INTEGER { v1(0), v2(1), v3(2) }

-- 4.1.2.2
CertificateSerialNumber ::= INTEGER

-- 4.1.1.2
AlgorithmIdentifier ::= SEQUENCE {
    algorithm               OBJECT IDENTIFIER,
    parameters              ANY DEFINED BY algorithm OPTIONAL
}

-- 4.1.2.4
Name ::= CHOICE {
    rdnSequence             RDNSequence
}

RDNSequence ::= SEQUENCE OF RelativeDistinguishedName

RelativeDistinguishedName ::= SET SIZE (1..MAX) OF AttributeTypeAndValue

AttributeTypeAndValue ::= SEQUENCE {
    type                    OBJECT IDENTIFIER,
    value                   ANY DEFINED BY type
}

-- 4.1.2.5
Validity ::= SEQUENCE {
    notBefore               Time,
    notAfter                Time
}

Time ::= CHOICE {
    utcTime                 UTCTime,
    generalTime             GeneralizedTime
}

-- 4.1.2.7
SubjectPublicKeyInfo ::= SEQUENCE {
    algorithm               AlgorithmIdentifier,
    subjectPublicKey        BIT STRING
}

-- 4.1.2.8
UniqueIdentifier ::= BIT STRING

-- 4.1.2.9
Extensions ::= SEQUENCE SIZE (1..MAX) OF Extension

Extension ::= SEQUENCE {
    extnID                  OBJECT IDENTIFIER,
    critical                BOOLEAN DEFAULT FALSE,
    extnValue               OCTET STRING
}

END
"
}

fn cmp() -> &'static str {
    "-- Certificate management (CMP, RFC 4210 5) and its requests (CRMF, RFC 4211), laid out from the
-- sections of the standards.

CRMF DEFINITIONS IMPLICIT TAGS ::= BEGIN

IMPORTS
    AlgorithmIdentifier, CertificateSerialNumber, Extensions, Name, SubjectPublicKeyInfo, Time,
    UniqueIdentifier, Version
        FROM Certificates
    GeneralName
        FROM CertificateExtensions
    EnvelopedData
        FROM CMS;

-- RFC 4211 3
CertReqMessages ::= SEQUENCE SIZE (1..MAX) OF CertReqMsg

CertReqMsg ::= SEQUENCE {
    certReq                         CertRequest,
    popo                            ProofOfPossession OPTIONAL,
    regInfo                         SEQUENCE SIZE (1..MAX) OF AttributeTypeAndValue OPTIONAL
}

AttributeTypeAndValue ::= SEQUENCE {
    type                            OBJECT IDENTIFIER,
    value                           ANY DEFINED BY type
}

-- RFC 4211 5
CertRequest ::= SEQUENCE {
    certReqId                       INTEGER,
    certTemplate                    CertTemplate,
    controls                        Controls OPTIONAL
}

CertTemplate ::= SEQUENCE {
    version                         [0] Version OPTIONAL,
    serialNumber                    [1] INTEGER OPTIONAL,
    signingAlg                      [2] AlgorithmIdentifier OPTIONAL,
    issuer                          [3] Name OPTIONAL,
    validity                        [4] OptionalValidity OPTIONAL,
    subject                         [5] Name OPTIONAL,
    publicKey                       [6] SubjectPublicKeyInfo OPTIONAL,
    issuerUID                       [7] UniqueIdentifier OPTIONAL,
    subjectUID                      [8] UniqueIdentifier OPTIONAL,
    extensions                      [9] Extensions OPTIONAL
}

OptionalValidity ::= SEQUENCE {
    notBefore                       [0] Time OPTIONAL,
    notAfter                        [1] Time OPTIONAL
}

Controls ::= SEQUENCE SIZE (1..MAX) OF AttributeTypeAndValue

-- RFC 4211 4
ProofOfPossession ::= CHOICE {
    raVerified                      [0] NULL,
    signature                       [1] POPOSigningKey,
    keyEncipherment                 [2] POPOPrivKey,
    keyAgreement                    [3] POPOPrivKey
}

-- RFC 4211 4.1
POPOSigningKey ::= SEQUENCE {
    poposkInput                     [0] POPOSigningKeyInput OPTIONAL,
    algorithmIdentifier             AlgorithmIdentifier,
    signature                       BIT STRING
}

POPOSigningKeyInput ::= SEQUENCE {
    authInfo                        CHOICE {
        sender                          [0] GeneralName,
        publicKeyMAC                    PKMACValue
    },
    publicKey                       SubjectPublicKeyInfo
}

PKMACValue ::= SEQUENCE {
    algId                           AlgorithmIdentifier,
    value                           BIT STRING
}

-- RFC 4211 4.2
POPOPrivKey ::= CHOICE {
    thisMessage                     [0] BIT STRING,
    subsequentMessage               [1] SubsequentMessage,
    dhMAC                           [2] BIT STRING,
    agreeMAC                        [3] PKMACValue,
    encryptedKey                    [4] EnvelopedData
}

SubsequentMessage ::= INTEGER { encrCert(0), challengeResp(1) }

-- RFC 4211 6.4
EncryptedKey ::= CHOICE {
    encryptedValue                  EncryptedValue,
    envelopedData                   [0] EnvelopedData
}

EncryptedValue ::= SEQUENCE {
    intendedAlg                     [0] AlgorithmIdentifier OPTIONAL,
    symmAlg                         [1] AlgorithmIdentifier OPTIONAL,
    encSymmKey                      [2] BIT STRING OPTIONAL,
    keyAlg                          [3] AlgorithmIdentifier OPTIONAL,
    valueHint                       [4] OCTET STRING OPTIONAL,
    encValue                        BIT STRING
}

-- RFC 4211 6.3
PKIPublicationInfo ::= SEQUENCE {
    action                          INTEGER { dontPublish(0), pleasePublish(1) },
    pubInfos                        SEQUENCE SIZE (1..MAX) OF SinglePubInfo OPTIONAL
}

SinglePubInfo ::= SEQUENCE {
    pubMethod                       INTEGER { dontCare(0), x500(1), web(2), ldap(3) },
    pubLocation                     GeneralName OPTIONAL
}

-- RFC 4211 6.5
CertId ::= SEQUENCE {
    issuer                          GeneralName,
    serialNumber                    CertificateSerialNumber
}

END

CMP DEFINITIONS EXPLICIT TAGS ::= BEGIN

IMPORTS
    AlgorithmIdentifier, Certificate, Extensions
        FROM Certificates
    GeneralName, KeyIdentifier
        FROM CertificateExtensions
    CertificateList
        FROM Revocation
    CertificationRequest
        FROM Requests
    CertId, CertReqMessages, CertTemplate, EncryptedValue, PKIPublicationInfo
        FROM CRMF;

-- RFC 4210 5.1
PKIMessage ::= SEQUENCE {
    header                          PKIHeader,
    body                            PKIBody,
    protection                      [0] PKIProtection OPTIONAL,
    extraCerts                      [1] SEQUENCE SIZE (1..MAX) OF CMPCertificate OPTIONAL
}

PKIMessages ::= SEQUENCE SIZE (1..MAX) OF PKIMessage

CMPCertificate ::= CHOICE {
    x509v3PKCert                    Certificate
}

-- RFC 4210 5.1.1
PKIHeader ::= SEQUENCE {
    pvno                            INTEGER { cmp1999(1), cmp2000(2) },
    sender                          GeneralName,
    recipient                       GeneralName,
    messageTime                     [0] GeneralizedTime OPTIONAL,
    protectionAlg                   [1] AlgorithmIdentifier OPTIONAL,
    senderKID                       [2] KeyIdentifier OPTIONAL,
    recipKID                        [3] KeyIdentifier OPTIONAL,
    transactionID                   [4] OCTET STRING OPTIONAL,
    senderNonce                     [5] OCTET STRING OPTIONAL,
    recipNonce                      [6] OCTET STRING OPTIONAL,
    freeText                        [7] PKIFreeText OPTIONAL,
    generalInfo                     [8] SEQUENCE SIZE (1..MAX) OF InfoTypeAndValue OPTIONAL
}

PKIFreeText ::= SEQUENCE SIZE (1..MAX) OF UTF8String

-- RFC 4210 5.1.2
PKIBody ::= CHOICE {
    ir                              [0] CertReqMessages,
    ip                              [1] CertRepMessage,
    cr                              [2] CertReqMessages,
    cp                              [3] CertRepMessage,
    p10cr                           [4] CertificationRequest,
    popdecc                         [5] POPODecKeyChallContent,
    popdecr                         [6] POPODecKeyRespContent,
    kur                             [7] CertReqMessages,
    kup                             [8] CertRepMessage,
    krr                             [9] CertReqMessages,
    krp                             [10] KeyRecRepContent,
    rr                              [11] RevReqContent,
    rp                              [12] RevRepContent,
    ccr                             [13] CertReqMessages,
    ccp                             [14] CertRepMessage,
    ckuann                          [15] CAKeyUpdAnnContent,
    cann                            [16] CMPCertificate,
    rann                            [17] RevAnnContent,
    crlann                          [18] CRLAnnContent,
    pkiconf                         [19] PKIConfirmContent,
    nested                          [20] PKIMessages,
    genm                            [21] GenMsgContent,
    genp                            [22] GenRepContent,
    error                           [23] ErrorMsgContent,
    certConf                        [24] CertConfirmContent,
    pollReq                         [25] PollReqContent,
    pollRep                         [26] PollRepContent
}

-- RFC 4210 5.1.3
PKIProtection ::= BIT STRING

ProtectedPart ::= SEQUENCE {
    header                          PKIHeader,
    body                            PKIBody
}

-- RFC 4210 5.1.3.1
PBMParameter ::= SEQUENCE {
    salt                            OCTET STRING,
    owf                             AlgorithmIdentifier,
    iterationCount                  INTEGER,
    mac                             AlgorithmIdentifier
}

-- RFC 4210 5.2.3
PKIStatus ::= INTEGER {
    accepted(0), grantedWithMods(1), rejection(2), waiting(3), revocationWarning(4),
    revocationNotification(5), keyUpdateWarning(6)
}

PKIFailureInfo ::= BIT STRING {
    badAlg(0), badMessageCheck(1), badRequest(2), badTime(3), badCertId(4), badDataFormat(5),
    wrongAuthority(6), incorrectData(7), missingTimeStamp(8), badPOP(9), certRevoked(10),
    certConfirmed(11), wrongIntegrity(12), badRecipientNonce(13), timeNotAvailable(14),
    unacceptedPolicy(15), unacceptedExtension(16), addInfoNotAvailable(17), badSenderNonce(18),
    badCertTemplate(19), signerNotTrusted(20), transactionIdInUse(21), unsupportedVersion(22),
    notAuthorized(23), systemUnavail(24), systemFailure(25), duplicateCertReq(26)
}

PKIStatusInfo ::= SEQUENCE {
    status                          PKIStatus,
    statusString                    PKIFreeText OPTIONAL,
    failInfo                        PKIFailureInfo OPTIONAL
}

-- RFC 4210 5.2.8
POPODecKeyChallContent ::= SEQUENCE OF Challenge

Challenge ::= SEQUENCE {
    owf                             AlgorithmIdentifier OPTIONAL,
    witness                         OCTET STRING,
    challenge                       OCTET STRING
}

POPODecKeyRespContent ::= SEQUENCE OF INTEGER

-- RFC 4210 5.3.4
CertRepMessage ::= SEQUENCE {
    caPubs                          [1] SEQUENCE SIZE (1..MAX) OF CMPCertificate OPTIONAL,
    response                        SEQUENCE OF CertResponse
}

CertResponse ::= SEQUENCE {
    certReqId                       INTEGER,
    status                          PKIStatusInfo,
    certifiedKeyPair                CertifiedKeyPair OPTIONAL,
    rspInfo                         OCTET STRING OPTIONAL
}

CertifiedKeyPair ::= SEQUENCE {
    certOrEncCert                   CertOrEncCert,
    privateKey                      [0] EncryptedValue OPTIONAL,
    publicationInfo                 [1] PKIPublicationInfo OPTIONAL
}

CertOrEncCert ::= CHOICE {
    certificate                     [0] CMPCertificate,
    encryptedCert                   [1] EncryptedValue
}

-- RFC 4210 5.3.8
KeyRecRepContent ::= SEQUENCE {
    status                          PKIStatusInfo,
    newSigCert                      [0] CMPCertificate OPTIONAL,
    caCerts                         [1] SEQUENCE SIZE (1..MAX) OF CMPCertificate OPTIONAL,
    keyPairHist                     [2] SEQUENCE SIZE (1..MAX) OF CertifiedKeyPair OPTIONAL
}

-- RFC 4210 5.3.9
RevReqContent ::= SEQUENCE OF RevDetails

RevDetails ::= SEQUENCE {
    certDetails                     CertTemplate,
    crlEntryDetails                 Extensions OPTIONAL
}

-- RFC 4210 5.3.10
RevRepContent ::= SEQUENCE {
    status                          SEQUENCE SIZE (1..MAX) OF PKIStatusInfo,
    revCerts                        [0] SEQUENCE SIZE (1..MAX) OF CertId OPTIONAL,
    crls                            [1] SEQUENCE SIZE (1..MAX) OF CertificateList OPTIONAL
}

-- RFC 4210 5.3.13
CAKeyUpdAnnContent ::= SEQUENCE {
    oldWithNew                      CMPCertificate,
    newWithOld                      CMPCertificate,
    newWithNew                      CMPCertificate
}

-- RFC 4210 5.3.15
RevAnnContent ::= SEQUENCE {
    status                          PKIStatus,
    certId                          CertId,
    willBeRevokedAt                 GeneralizedTime,
    badSinceDate                    GeneralizedTime,
    crlDetails                      Extensions OPTIONAL
}

-- RFC 4210 5.3.16
CRLAnnContent ::= SEQUENCE OF CertificateList

-- RFC 4210 5.3.17
PKIConfirmContent ::= NULL

-- RFC 4210 5.3.18
CertConfirmContent ::= SEQUENCE OF CertStatus

CertStatus ::= SEQUENCE {
    certHash                        OCTET STRING,
    certReqId                       INTEGER,
    statusInfo                      PKIStatusInfo OPTIONAL
}

-- RFC 4210 5.3.19
InfoTypeAndValue ::= SEQUENCE {
    infoType                        OBJECT IDENTIFIER,
    infoValue                       ANY DEFINED BY infoType OPTIONAL
}

GenMsgContent ::= SEQUENCE OF InfoTypeAndValue

-- RFC 4210 5.3.20
GenRepContent ::= SEQUENCE OF InfoTypeAndValue

-- RFC 4210 5.3.21
ErrorMsgContent ::= SEQUENCE {
    pKIStatusInfo                   PKIStatusInfo,
    errorCode                       INTEGER OPTIONAL,
    errorDetails                    PKIFreeText OPTIONAL
}

-- RFC 4210 5.3.22
PollReqContent ::= SEQUENCE OF SEQUENCE {
    certReqId                       INTEGER
}

PollRepContent ::= SEQUENCE OF SEQUENCE {
    certReqId                       INTEGER,
    checkAfter                      INTEGER,
    reason                          PKIFreeText OPTIONAL
}

END
"
}

fn cms() -> &'static str {
    "-- Cryptographic messages (CMS, RFC 5652, and RFC 5083 for authenticated encryption), laid out from the
-- sections of the standards.

CMS DEFINITIONS IMPLICIT TAGS ::= BEGIN

IMPORTS
    AlgorithmIdentifier, Certificate, CertificateSerialNumber, Name, Time
        FROM Certificates
    SubjectKeyIdentifier
        FROM CertificateExtensions
    CertificateList
        FROM Revocation
    AttributeCertificate, AttributeCertificateV1
        FROM AttributeCertificates;

-- 3
ContentInfo ::= SEQUENCE {
    contentType                     ContentType,
    content                         [0] EXPLICIT ANY DEFINED BY contentType
}

ContentType ::= OBJECT IDENTIFIER

-- 5.1
SignedData ::= SEQUENCE {
    version                         CMSVersion,
    digestAlgorithms                DigestAlgorithmIdentifiers,
    encapContentInfo                EncapsulatedContentInfo,
    certificates                    [0] CertificateSet OPTIONAL,
    crls                            [1] RevocationInfoChoices OPTIONAL,
    signerInfos                     SignerInfos
}

DigestAlgorithmIdentifiers ::= SET OF DigestAlgorithmIdentifier

SignerInfos ::= SET OF SignerInfo

-- 5.2
EncapsulatedContentInfo ::= SEQUENCE {
    eContentType                    ContentType,
    eContent                        [0] EXPLICIT OCTET STRING OPTIONAL
}

-- 5.3
SignerInfo ::= SEQUENCE {
    version                         CMSVersion,
    sid                             SignerIdentifier,
    digestAlgorithm                 DigestAlgorithmIdentifier,
    signedAttrs                     [0] SignedAttributes OPTIONAL,
    signatureAlgorithm              SignatureAlgorithmIdentifier,
    signature                       SignatureValue,
    unsignedAttrs                   [1] UnsignedAttributes OPTIONAL
}

SignerIdentifier ::= CHOICE {
    issuerAndSerialNumber           IssuerAndSerialNumber,
    subjectKeyIdentifier            [0] SubjectKeyIdentifier
}

SignedAttributes ::= SET SIZE (1..MAX) OF Attribute

UnsignedAttributes ::= SET SIZE (1..MAX) OF Attribute

Attribute ::= SEQUENCE {
    attrType                        OBJECT IDENTIFIER,
    attrValues                      SET OF ANY
}

SignatureValue ::= OCTET STRING

-- 6.1
EnvelopedData ::= SEQUENCE {
    version                         CMSVersion,
    originatorInfo                  [0] OriginatorInfo OPTIONAL,
    recipientInfos                  RecipientInfos,
    encryptedContentInfo            EncryptedContentInfo,
    unprotectedAttrs                [1] UnprotectedAttributes OPTIONAL
}

OriginatorInfo ::= SEQUENCE {
    certs                           [0] CertificateSet OPTIONAL,
    crls                            [1] RevocationInfoChoices OPTIONAL
}

RecipientInfos ::= SET SIZE (1..MAX) OF RecipientInfo

EncryptedContentInfo ::= SEQUENCE {
    contentType                     ContentType,
    contentEncryptionAlgorithm      ContentEncryptionAlgorithmIdentifier,
    encryptedContent                [0] EncryptedContent OPTIONAL
}

EncryptedContent ::= OCTET STRING

UnprotectedAttributes ::= SET SIZE (1..MAX) OF Attribute

-- 6.2
RecipientInfo ::= CHOICE {
    ktri                            KeyTransRecipientInfo,
    kari                            [1] KeyAgreeRecipientInfo,
    kekri                           [2] KEKRecipientInfo,
    pwri                            [3] PasswordRecipientInfo,
    ori                             [4] OtherRecipientInfo
}

EncryptedKey ::= OCTET STRING

-- 6.2.1
KeyTransRecipientInfo ::= SEQUENCE {
    version                         CMSVersion,
    rid                             RecipientIdentifier,
    keyEncryptionAlgorithm          KeyEncryptionAlgorithmIdentifier,
    encryptedKey                    EncryptedKey
}

RecipientIdentifier ::= CHOICE {
    issuerAndSerialNumber           IssuerAndSerialNumber,
    subjectKeyIdentifier            [0] SubjectKeyIdentifier
}

-- 6.2.2
KeyAgreeRecipientInfo ::= SEQUENCE {
    version                         CMSVersion,
    originator                      [0] EXPLICIT OriginatorIdentifierOrKey,
    ukm                             [1] EXPLICIT UserKeyingMaterial OPTIONAL,
    keyEncryptionAlgorithm          KeyEncryptionAlgorithmIdentifier,
    recipientEncryptedKeys          RecipientEncryptedKeys
}

OriginatorIdentifierOrKey ::= CHOICE {
    issuerAndSerialNumber           IssuerAndSerialNumber,
    subjectKeyIdentifier            [0] SubjectKeyIdentifier,
    originatorKey                   [1] OriginatorPublicKey
}

OriginatorPublicKey ::= SEQUENCE {
    algorithm                       AlgorithmIdentifier,
    publicKey                       BIT STRING
}

RecipientEncryptedKeys ::= SEQUENCE OF RecipientEncryptedKey

RecipientEncryptedKey ::= SEQUENCE {
    rid                             KeyAgreeRecipientIdentifier,
    encryptedKey                    EncryptedKey
}

KeyAgreeRecipientIdentifier ::= CHOICE {
    issuerAndSerialNumber           IssuerAndSerialNumber,
    rKeyId                          [0] RecipientKeyIdentifier
}

RecipientKeyIdentifier ::= SEQUENCE {
    subjectKeyIdentifier            SubjectKeyIdentifier,
    date                            GeneralizedTime OPTIONAL,
    other                           OtherKeyAttribute OPTIONAL
}

-- 6.2.3
KEKRecipientInfo ::= SEQUENCE {
    version                         CMSVersion,
    kekid                           KEKIdentifier,
    keyEncryptionAlgorithm          KeyEncryptionAlgorithmIdentifier,
    encryptedKey                    EncryptedKey
}

KEKIdentifier ::= SEQUENCE {
    keyIdentifier                   OCTET STRING,
    date                            GeneralizedTime OPTIONAL,
    other                           OtherKeyAttribute OPTIONAL
}

-- 6.2.4
PasswordRecipientInfo ::= SEQUENCE {
    version                         CMSVersion,
    keyDerivationAlgorithm          [0] KeyDerivationAlgorithmIdentifier OPTIONAL,
    keyEncryptionAlgorithm          KeyEncryptionAlgorithmIdentifier,
    encryptedKey                    EncryptedKey
}

-- 6.2.5
OtherRecipientInfo ::= SEQUENCE {
    oriType                         OBJECT IDENTIFIER,
    oriValue                        ANY DEFINED BY oriType
}

-- 7
DigestedData ::= SEQUENCE {
    version                         CMSVersion,
    digestAlgorithm                 DigestAlgorithmIdentifier,
    encapContentInfo                EncapsulatedContentInfo,
    digest                          OCTET STRING
}

-- 8
EncryptedData ::= SEQUENCE {
    version                         CMSVersion,
    encryptedContentInfo            EncryptedContentInfo,
    unprotectedAttrs                [1] UnprotectedAttributes OPTIONAL
}

-- 9.1
AuthenticatedData ::= SEQUENCE {
    version                         CMSVersion,
    originatorInfo                  [0] OriginatorInfo OPTIONAL,
    recipientInfos                  RecipientInfos,
    macAlgorithm                    MessageAuthenticationCodeAlgorithm,
    digestAlgorithm                 [1] DigestAlgorithmIdentifier OPTIONAL,
    encapContentInfo                EncapsulatedContentInfo,
    authAttrs                       [2] AuthAttributes OPTIONAL,
    mac                             MessageAuthenticationCode,
    unauthAttrs                     [3] UnauthAttributes OPTIONAL
}

AuthAttributes ::= SET SIZE (1..MAX) OF Attribute

UnauthAttributes ::= SET SIZE (1..MAX) OF Attribute

MessageAuthenticationCode ::= OCTET STRING

-- RFC 5083 2.1
AuthEnvelopedData ::= SEQUENCE {
    version                         CMSVersion,
    originatorInfo                  [0] OriginatorInfo OPTIONAL,
    recipientInfos                  RecipientInfos,
    authEncryptedContentInfo        EncryptedContentInfo,
    authAttrs                       [1] AuthAttributes OPTIONAL,
    mac                             MessageAuthenticationCode,
    unauthAttrs                     [2] UnauthAttributes OPTIONAL
}

-- 10.1
DigestAlgorithmIdentifier ::= AlgorithmIdentifier

SignatureAlgorithmIdentifier ::= AlgorithmIdentifier

KeyEncryptionAlgorithmIdentifier ::= AlgorithmIdentifier

ContentEncryptionAlgorithmIdentifier ::= AlgorithmIdentifier

MessageAuthenticationCodeAlgorithm ::= AlgorithmIdentifier

KeyDerivationAlgorithmIdentifier ::= AlgorithmIdentifier

-- 10.2.1
RevocationInfoChoices ::= SET OF RevocationInfoChoice

RevocationInfoChoice ::= CHOICE {
    crl                             CertificateList,
    other                           [1] OtherRevocationInfoFormat
}

OtherRevocationInfoFormat ::= SEQUENCE {
    otherRevInfoFormat              OBJECT IDENTIFIER,
    otherRevInfo                    ANY DEFINED BY otherRevInfoFormat
}

-- 10.2.2
CertificateChoices ::= CHOICE {
    certificate                     Certificate,
    extendedCertificate             [0] ExtendedCertificate,
    v1AttrCert                      [1] AttributeCertificateV1,
    v2AttrCert                      [2] AttributeCertificate,
    other                           [3] OtherCertificateFormat
}

ExtendedCertificate ::= SEQUENCE {
    extendedCertificateInfo         ExtendedCertificateInfo,
    signatureAlgorithm              SignatureAlgorithmIdentifier,
    signature                       BIT STRING
}

ExtendedCertificateInfo ::= SEQUENCE {
    version                         CMSVersion,
    certificate                     Certificate,
    attributes                      UnauthAttributes
}

OtherCertificateFormat ::= SEQUENCE {
    otherCertFormat                 OBJECT IDENTIFIER,
    otherCert                       ANY DEFINED BY otherCertFormat
}

-- 10.2.3
CertificateSet ::= SET OF CertificateChoices

-- 10.2.4
IssuerAndSerialNumber ::= SEQUENCE {
    issuer                          Name,
    serialNumber                    CertificateSerialNumber
}

-- 10.2.5
CMSVersion ::= INTEGER { v0(0), v1(1), v2(2), v3(3), v4(4), v5(5) }

-- 10.2.6
UserKeyingMaterial ::= OCTET STRING

-- 10.2.7
OtherKeyAttribute ::= SEQUENCE {
    keyAttrId                       OBJECT IDENTIFIER,
    keyAttr                         ANY DEFINED BY keyAttrId OPTIONAL
}

-- 11.2
MessageDigest ::= OCTET STRING

-- 11.3
SigningTime ::= Time

-- 11.4
Countersignature ::= SignerInfo

END
"
}

fn extensions() -> &'static str {
    "-- Extensions of certificates and of revocation lists (RFC 5280 4.2, 5.2, 5.3), and the addresses of
-- X.400 in names (A.1), laid out from the sections of the standard. Each type is what an extension's
-- octets hold.

CertificateExtensions DEFINITIONS IMPLICIT TAGS ::= BEGIN

IMPORTS
    CertificateSerialNumber, Name, RelativeDistinguishedName
        FROM Certificates;

-- 4.2.1.1
AuthorityKeyIdentifier ::= SEQUENCE {
    keyIdentifier                   [0] KeyIdentifier OPTIONAL,
    authorityCertIssuer             [1] GeneralNames OPTIONAL,
    authorityCertSerialNumber       [2] CertificateSerialNumber OPTIONAL
}

KeyIdentifier ::= OCTET STRING

-- 4.2.1.2
SubjectKeyIdentifier ::= KeyIdentifier

-- 4.2.1.3
KeyUsage ::= BIT STRING {
    digitalSignature(0), nonRepudiation(1), keyEncipherment(2), dataEncipherment(3),
    keyAgreement(4), keyCertSign(5), cRLSign(6), encipherOnly(7), decipherOnly(8)
}

-- A.2
PrivateKeyUsagePeriod ::= SEQUENCE {
    notBefore                       [0] GeneralizedTime OPTIONAL,
    notAfter                        [1] GeneralizedTime OPTIONAL
}

-- 4.2.1.4
CertificatePolicies ::= SEQUENCE SIZE (1..MAX) OF PolicyInformation

PolicyInformation ::= SEQUENCE {
    policyIdentifier                CertPolicyId,
    policyQualifiers                SEQUENCE SIZE (1..MAX) OF PolicyQualifierInfo OPTIONAL
}

CertPolicyId ::= OBJECT IDENTIFIER

PolicyQualifierInfo ::= SEQUENCE {
    policyQualifierId               PolicyQualifierId,
    qualifier                       ANY DEFINED BY policyQualifierId
}

PolicyQualifierId ::= OBJECT IDENTIFIER

CPSuri ::= IA5String

UserNotice ::= SEQUENCE {
    noticeRef                       NoticeReference OPTIONAL,
    explicitText                    DisplayText OPTIONAL
}

NoticeReference ::= SEQUENCE {
    organization                    DisplayText,
    noticeNumbers                   SEQUENCE OF INTEGER
}

DisplayText ::= CHOICE {
    ia5String                       IA5String (SIZE (1..200)),
    visibleString                   VisibleString (SIZE (1..200)),
    bmpString                       BMPString (SIZE (1..200)),
    utf8String                      UTF8String (SIZE (1..200))
}

-- 4.2.1.5
PolicyMappings ::= SEQUENCE SIZE (1..MAX) OF PolicyMapping

PolicyMapping ::= SEQUENCE {
    issuerDomainPolicy              CertPolicyId,
    subjectDomainPolicy             CertPolicyId
}

-- 4.2.1.6
SubjectAltName ::= GeneralNames

GeneralNames ::= SEQUENCE SIZE (1..MAX) OF GeneralName

GeneralName ::= CHOICE {
    otherName                       [0] AnotherName,
    rfc822Name                      [1] IA5String,
    dNSName                         [2] IA5String,
    x400Address                     [3] ORAddress,
    directoryName                   [4] Name,
    ediPartyName                    [5] EDIPartyName,
    uniformResourceIdentifier       [6] IA5String,
    iPAddress                       [7] OCTET STRING,
    registeredID                    [8] OBJECT IDENTIFIER
}

AnotherName ::= SEQUENCE {
    type-id                         OBJECT IDENTIFIER,
    value                           [0] EXPLICIT ANY DEFINED BY type-id
}

EDIPartyName ::= SEQUENCE {
    nameAssigner                    [0] DirectoryString OPTIONAL,
    partyName                       [1] DirectoryString
}

DirectoryString ::= CHOICE {
    teletexString                   TeletexString (SIZE (1..MAX)),
    printableString                 PrintableString (SIZE (1..MAX)),
    universalString                 UniversalString (SIZE (1..MAX)),
    utf8String                      UTF8String (SIZE (1..MAX)),
    bmpString                       BMPString (SIZE (1..MAX))
}

-- 4.2.1.7
IssuerAltName ::= GeneralNames

-- 4.2.1.8
SubjectDirectoryAttributes ::= SEQUENCE SIZE (1..MAX) OF Attribute

Attribute ::= SEQUENCE {
    type                            OBJECT IDENTIFIER,
    values                          SET OF ANY
}

-- 4.2.1.9
BasicConstraints ::= SEQUENCE {
    cA                              BOOLEAN DEFAULT FALSE,
    pathLenConstraint               INTEGER (0..MAX) OPTIONAL
}

-- 4.2.1.10
NameConstraints ::= SEQUENCE {
    permittedSubtrees               [0] GeneralSubtrees OPTIONAL,
    excludedSubtrees                [1] GeneralSubtrees OPTIONAL
}

GeneralSubtrees ::= SEQUENCE SIZE (1..MAX) OF GeneralSubtree

GeneralSubtree ::= SEQUENCE {
    base                            GeneralName,
    minimum                         [0] BaseDistance DEFAULT 0,
    maximum                         [1] BaseDistance OPTIONAL
}

BaseDistance ::= INTEGER (0..MAX)

-- 4.2.1.11
PolicyConstraints ::= SEQUENCE {
    requireExplicitPolicy           [0] SkipCerts OPTIONAL,
    inhibitPolicyMapping            [1] SkipCerts OPTIONAL
}

SkipCerts ::= INTEGER (0..MAX)

-- 4.2.1.12
ExtKeyUsageSyntax ::= SEQUENCE SIZE (1..MAX) OF KeyPurposeId

KeyPurposeId ::= OBJECT IDENTIFIER

-- 4.2.1.13
CRLDistributionPoints ::= SEQUENCE SIZE (1..MAX) OF DistributionPoint

DistributionPoint ::= SEQUENCE {
    distributionPoint               [0] DistributionPointName OPTIONAL,
    reasons                         [1] ReasonFlags OPTIONAL,
    cRLIssuer                       [2] GeneralNames OPTIONAL
}

DistributionPointName ::= CHOICE {
    fullName                        [0] GeneralNames,
    nameRelativeToCRLIssuer         [1] RelativeDistinguishedName
}

ReasonFlags ::= BIT STRING {
    unused(0), keyCompromise(1), cACompromise(2), affiliationChanged(3), superseded(4),
    cessationOfOperation(5), certificateHold(6), privilegeWithdrawn(7), aACompromise(8)
}

-- 4.2.1.14
InhibitAnyPolicy ::= SkipCerts

-- 4.2.1.15
FreshestCRL ::= CRLDistributionPoints

-- 4.2.2.1
AuthorityInfoAccessSyntax ::= SEQUENCE SIZE (1..MAX) OF AccessDescription

AccessDescription ::= SEQUENCE {
    accessMethod                    OBJECT IDENTIFIER,
    accessLocation                  GeneralName
}

-- 4.2.2.2
SubjectInfoAccessSyntax ::= SEQUENCE SIZE (1..MAX) OF AccessDescription

-- 5.2.3
CRLNumber ::= INTEGER (0..MAX)

-- 5.2.4
BaseCRLNumber ::= CRLNumber

-- 5.2.5
IssuingDistributionPoint ::= SEQUENCE {
    distributionPoint               [0] DistributionPointName OPTIONAL,
    onlyContainsUserCerts           [1] BOOLEAN DEFAULT FALSE,
    onlyContainsCACerts             [2] BOOLEAN DEFAULT FALSE,
    onlySomeReasons                 [3] ReasonFlags OPTIONAL,
    indirectCRL                     [4] BOOLEAN DEFAULT FALSE,
    onlyContainsAttributeCerts      [5] BOOLEAN DEFAULT FALSE
}

-- 5.3.1
CRLReason ::= ENUMERATED {
    unspecified(0), keyCompromise(1), cACompromise(2), affiliationChanged(3), superseded(4),
    cessationOfOperation(5), certificateHold(6), removeFromCRL(8), privilegeWithdrawn(9),
    aACompromise(10)
}

-- 5.3.2
InvalidityDate ::= GeneralizedTime

-- 5.3.3
CertificateIssuer ::= GeneralNames

-- A.2
HoldInstructionCode ::= OBJECT IDENTIFIER

-- A.1
ORAddress ::= SEQUENCE {
    built-in-standard-attributes        BuiltInStandardAttributes,
    built-in-domain-defined-attributes  BuiltInDomainDefinedAttributes OPTIONAL,
    extension-attributes                ExtensionAttributes OPTIONAL
}

BuiltInStandardAttributes ::= SEQUENCE {
    country-name                    CountryName OPTIONAL,
    administration-domain-name      AdministrationDomainName OPTIONAL,
    network-address                 [0] X121Address OPTIONAL,
    terminal-identifier             [1] PrintableString (SIZE (1..24)) OPTIONAL,
    private-domain-name             [2] PrivateDomainName OPTIONAL,
    organization-name               [3] PrintableString (SIZE (1..64)) OPTIONAL,
    numeric-user-identifier         [4] NumericString (SIZE (1..32)) OPTIONAL,
    personal-name                   [5] PersonalName OPTIONAL,
    organizational-unit-names       [6] OrganizationalUnitNames OPTIONAL
}

CountryName ::= [APPLICATION 1] CHOICE {
    x121-dcc-code                   NumericString (SIZE (3)),
    iso-3166-alpha2-code            PrintableString (SIZE (2))
}

AdministrationDomainName ::= [APPLICATION 2] CHOICE {
    numeric                         NumericString (SIZE (0..16)),
    printable                       PrintableString (SIZE (0..16))
}

X121Address ::= NumericString (SIZE (1..16))

PrivateDomainName ::= CHOICE {
    numeric                         NumericString (SIZE (1..16)),
    printable                       PrintableString (SIZE (1..16))
}

PersonalName ::= SET {
    surname                         [0] PrintableString (SIZE (1..40)),
    given-name                      [1] PrintableString (SIZE (1..16)) OPTIONAL,
    initials                        [2] PrintableString (SIZE (1..5)) OPTIONAL,
    generation-qualifier            [3] PrintableString (SIZE (1..3)) OPTIONAL
}

OrganizationalUnitNames ::= SEQUENCE SIZE (1..4) OF OrganizationalUnitName

OrganizationalUnitName ::= PrintableString (SIZE (1..32))

BuiltInDomainDefinedAttributes ::= SEQUENCE SIZE (1..4) OF BuiltInDomainDefinedAttribute

BuiltInDomainDefinedAttribute ::= SEQUENCE {
    type                            PrintableString (SIZE (1..8)),
    value                           PrintableString (SIZE (1..128))
}

ExtensionAttributes ::= SET SIZE (1..256) OF ExtensionAttribute

ExtensionAttribute ::= SEQUENCE {
    extension-attribute-type        [0] INTEGER (0..256),
    extension-attribute-value       [1] ANY DEFINED BY extension-attribute-type
}

END
"
}

fn kerberos() -> &'static str {
    "-- Messages of Kerberos (RFC 4120 5), laid out from the sections of the standard.

Kerberos DEFINITIONS EXPLICIT TAGS ::= BEGIN

-- 5.2.1
KerberosString ::= GeneralString (IA5String)

-- 5.2.2
Realm ::= KerberosString

PrincipalName ::= SEQUENCE {
    name-type                       [0] Int32,
    name-string                     [1] SEQUENCE OF KerberosString
}

-- 5.2.3
KerberosTime ::= GeneralizedTime

-- 5.2.4
Int32 ::= INTEGER (-2147483648..2147483647)

UInt32 ::= INTEGER (0..4294967295)

Microseconds ::= INTEGER (0..999999)

-- 5.2.5
HostAddress ::= SEQUENCE {
    addr-type                       [0] Int32,
    address                         [1] OCTET STRING
}

HostAddresses ::= SEQUENCE OF HostAddress

-- 5.2.6
AuthorizationData ::= SEQUENCE OF AuthorizationDataElement

AuthorizationDataElement ::= SEQUENCE {
    ad-type                         [0] Int32,
    ad-data                         [1] OCTET STRING
}

-- 5.2.6.1
AD-IF-RELEVANT ::= AuthorizationData

-- 5.2.6.2
AD-KDCIssued ::= SEQUENCE {
    ad-checksum                     [0] Checksum,
    i-realm                         [1] Realm OPTIONAL,
    i-sname                         [2] PrincipalName OPTIONAL,
    elements                        [3] AuthorizationData
}

-- 5.2.6.3
AD-AND-OR ::= SEQUENCE {
    condition-count                 [0] Int32,
    elements                        [1] AuthorizationData
}

-- 5.2.6.4
AD-MANDATORY-FOR-KDC ::= AuthorizationData

-- 5.2.7
PA-DATA ::= SEQUENCE {
    padata-type                     [1] Int32,
    padata-value                    [2] OCTET STRING
}

METHOD-DATA ::= SEQUENCE OF PA-DATA

-- 5.2.7.2
PA-ENC-TIMESTAMP ::= EncryptedData

PA-ENC-TS-ENC ::= SEQUENCE {
    patimestamp                     [0] KerberosTime,
    pausec                          [1] Microseconds OPTIONAL
}

-- 5.2.7.4
ETYPE-INFO-ENTRY ::= SEQUENCE {
    etype                           [0] Int32,
    salt                            [1] OCTET STRING OPTIONAL
}

ETYPE-INFO ::= SEQUENCE OF ETYPE-INFO-ENTRY

-- 5.2.7.5
ETYPE-INFO2-ENTRY ::= SEQUENCE {
    etype                           [0] Int32,
    salt                            [1] KerberosString OPTIONAL,
    s2kparams                       [2] OCTET STRING OPTIONAL
}

ETYPE-INFO2 ::= SEQUENCE SIZE (1..MAX) OF ETYPE-INFO2-ENTRY

-- 5.2.8
KerberosFlags ::= BIT STRING (SIZE (32..MAX))

-- 5.2.9
EncryptedData ::= SEQUENCE {
    etype                           [0] Int32,
    kvno                            [1] UInt32 OPTIONAL,
    cipher                          [2] OCTET STRING
}

EncryptionKey ::= SEQUENCE {
    keytype                         [0] Int32,
    keyvalue                        [1] OCTET STRING
}

Checksum ::= SEQUENCE {
    cksumtype                       [0] Int32,
    checksum                        [1] OCTET STRING
}

-- 5.3
Ticket ::= [APPLICATION 1] SEQUENCE {
    tkt-vno                         [0] INTEGER (5),
    realm                           [1] Realm,
    sname                           [2] PrincipalName,
    enc-part                        [3] EncryptedData
}

EncTicketPart ::= [APPLICATION 3] SEQUENCE {
    flags                           [0] TicketFlags,
    key                             [1] EncryptionKey,
    crealm                          [2] Realm,
    cname                           [3] PrincipalName,
    transited                       [4] TransitedEncoding,
    authtime                        [5] KerberosTime,
    starttime                       [6] KerberosTime OPTIONAL,
    endtime                         [7] KerberosTime,
    renew-till                      [8] KerberosTime OPTIONAL,
    caddr                           [9] HostAddresses OPTIONAL,
    authorization-data              [10] AuthorizationData OPTIONAL
}

TransitedEncoding ::= SEQUENCE {
    tr-type                         [0] Int32,
    contents                        [1] OCTET STRING
}

TicketFlags ::= KerberosFlags

-- 5.4.1
AS-REQ ::= [APPLICATION 10] KDC-REQ

TGS-REQ ::= [APPLICATION 12] KDC-REQ

KDC-REQ ::= SEQUENCE {
    pvno                            [1] INTEGER (5),
    msg-type                        [2] INTEGER (10 | 12),
    padata                          [3] SEQUENCE OF PA-DATA OPTIONAL,
    req-body                        [4] KDC-REQ-BODY
}

KDC-REQ-BODY ::= SEQUENCE {
    kdc-options                     [0] KDCOptions,
    cname                           [1] PrincipalName OPTIONAL,
    realm                           [2] Realm,
    sname                           [3] PrincipalName OPTIONAL,
    from                            [4] KerberosTime OPTIONAL,
    till                            [5] KerberosTime,
    rtime                           [6] KerberosTime OPTIONAL,
    nonce                           [7] UInt32,
    etype                           [8] SEQUENCE OF Int32,
    addresses                       [9] HostAddresses OPTIONAL,
    enc-authorization-data          [10] EncryptedData OPTIONAL,
    additional-tickets              [11] SEQUENCE OF Ticket OPTIONAL
}

KDCOptions ::= KerberosFlags

-- 5.4.2
AS-REP ::= [APPLICATION 11] KDC-REP

TGS-REP ::= [APPLICATION 13] KDC-REP

KDC-REP ::= SEQUENCE {
    pvno                            [0] INTEGER (5),
    msg-type                        [1] INTEGER (11 | 13),
    padata                          [2] SEQUENCE OF PA-DATA OPTIONAL,
    crealm                          [3] Realm,
    cname                           [4] PrincipalName,
    ticket                          [5] Ticket,
    enc-part                        [6] EncryptedData
}

EncASRepPart ::= [APPLICATION 25] EncKDCRepPart

EncTGSRepPart ::= [APPLICATION 26] EncKDCRepPart

EncKDCRepPart ::= SEQUENCE {
    key                             [0] EncryptionKey,
    last-req                        [1] LastReq,
    nonce                           [2] UInt32,
    key-expiration                  [3] KerberosTime OPTIONAL,
    flags                           [4] TicketFlags,
    authtime                        [5] KerberosTime,
    starttime                       [6] KerberosTime OPTIONAL,
    endtime                         [7] KerberosTime,
    renew-till                      [8] KerberosTime OPTIONAL,
    srealm                          [9] Realm,
    sname                           [10] PrincipalName,
    caddr                           [11] HostAddresses OPTIONAL
}

LastReq ::= SEQUENCE OF SEQUENCE {
    lr-type                         [0] Int32,
    lr-value                        [1] KerberosTime
}

-- 5.5.1
AP-REQ ::= [APPLICATION 14] SEQUENCE {
    pvno                            [0] INTEGER (5),
    msg-type                        [1] INTEGER (14),
    ap-options                      [2] APOptions,
    ticket                          [3] Ticket,
    authenticator                   [4] EncryptedData
}

APOptions ::= KerberosFlags

Authenticator ::= [APPLICATION 2] SEQUENCE {
    authenticator-vno               [0] INTEGER (5),
    crealm                          [1] Realm,
    cname                           [2] PrincipalName,
    cksum                           [3] Checksum OPTIONAL,
    cusec                           [4] Microseconds,
    ctime                           [5] KerberosTime,
    subkey                          [6] EncryptionKey OPTIONAL,
    seq-number                      [7] UInt32 OPTIONAL,
    authorization-data              [8] AuthorizationData OPTIONAL
}

-- 5.5.2
AP-REP ::= [APPLICATION 15] SEQUENCE {
    pvno                            [0] INTEGER (5),
    msg-type                        [1] INTEGER (15),
    enc-part                        [2] EncryptedData
}

EncAPRepPart ::= [APPLICATION 27] SEQUENCE {
    ctime                           [0] KerberosTime,
    cusec                           [1] Microseconds,
    subkey                          [2] EncryptionKey OPTIONAL,
    seq-number                      [3] UInt32 OPTIONAL
}

-- 5.6.1
KRB-SAFE ::= [APPLICATION 20] SEQUENCE {
    pvno                            [0] INTEGER (5),
    msg-type                        [1] INTEGER (20),
    safe-body                       [2] KRB-SAFE-BODY,
    cksum                           [3] Checksum
}

KRB-SAFE-BODY ::= SEQUENCE {
    user-data                       [0] OCTET STRING,
    timestamp                       [1] KerberosTime OPTIONAL,
    usec                            [2] Microseconds OPTIONAL,
    seq-number                      [3] UInt32 OPTIONAL,
    s-address                       [4] HostAddress,
    r-address                       [5] HostAddress OPTIONAL
}

-- 5.7.1
KRB-PRIV ::= [APPLICATION 21] SEQUENCE {
    pvno                            [0] INTEGER (5),
    msg-type                        [1] INTEGER (21),
    enc-part                        [3] EncryptedData
}

EncKrbPrivPart ::= [APPLICATION 28] SEQUENCE {
    user-data                       [0] OCTET STRING,
    timestamp                       [1] KerberosTime OPTIONAL,
    usec                            [2] Microseconds OPTIONAL,
    seq-number                      [3] UInt32 OPTIONAL,
    s-address                       [4] HostAddress,
    r-address                       [5] HostAddress OPTIONAL
}

-- 5.8.1
KRB-CRED ::= [APPLICATION 22] SEQUENCE {
    pvno                            [0] INTEGER (5),
    msg-type                        [1] INTEGER (22),
    tickets                         [2] SEQUENCE OF Ticket,
    enc-part                        [3] EncryptedData
}

EncKrbCredPart ::= [APPLICATION 29] SEQUENCE {
    ticket-info                     [0] SEQUENCE OF KrbCredInfo,
    nonce                           [1] UInt32 OPTIONAL,
    timestamp                       [2] KerberosTime OPTIONAL,
    usec                            [3] Microseconds OPTIONAL,
    s-address                       [4] HostAddress OPTIONAL,
    r-address                       [5] HostAddress OPTIONAL
}

KrbCredInfo ::= SEQUENCE {
    key                             [0] EncryptionKey,
    prealm                          [1] Realm OPTIONAL,
    pname                           [2] PrincipalName OPTIONAL,
    flags                           [3] TicketFlags OPTIONAL,
    authtime                        [4] KerberosTime OPTIONAL,
    starttime                       [5] KerberosTime OPTIONAL,
    endtime                         [6] KerberosTime OPTIONAL,
    renew-till                      [7] KerberosTime OPTIONAL,
    srealm                          [8] Realm OPTIONAL,
    sname                           [9] PrincipalName OPTIONAL,
    caddr                           [10] HostAddresses OPTIONAL
}

-- 5.9.1
KRB-ERROR ::= [APPLICATION 30] SEQUENCE {
    pvno                            [0] INTEGER (5),
    msg-type                        [1] INTEGER (30),
    ctime                           [2] KerberosTime OPTIONAL,
    cusec                           [3] Microseconds OPTIONAL,
    stime                           [4] KerberosTime,
    susec                           [5] Microseconds,
    error-code                      [6] Int32,
    crealm                          [7] Realm OPTIONAL,
    cname                           [8] PrincipalName OPTIONAL,
    realm                           [9] Realm,
    sname                           [10] PrincipalName,
    e-text                          [11] KerberosString OPTIONAL,
    e-data                          [12] OCTET STRING OPTIONAL
}

TYPED-DATA ::= SEQUENCE SIZE (1..MAX) OF SEQUENCE {
    data-type                       [0] Int32,
    data-value                      [1] OCTET STRING OPTIONAL
}

END
"
}

fn keys() -> &'static str {
    "-- Keys and signatures: RSA (PKCS #1, RFC 8017 A.1), private keys (PKCS #8, RFC 5958 2 and 3), elliptic
-- curves (SEC 1 C, RFC 5915 3, RFC 3279 2.2.3), DSA and Diffie-Hellman (RFC 3279 2.3, PKCS #3 9), laid
-- out from the sections of the standards.

Keys DEFINITIONS IMPLICIT TAGS ::= BEGIN

IMPORTS
    AlgorithmIdentifier
        FROM Certificates;

-- RFC 8017 A.1.1
RSAPublicKey ::= SEQUENCE {
    modulus                         INTEGER,
    publicExponent                  INTEGER
}

-- RFC 8017 A.1.2
RSAPrivateKey ::= SEQUENCE {
    version                         INTEGER { two-prime(0), multi(1) },
    modulus                         INTEGER,
    publicExponent                  INTEGER,
    privateExponent                 INTEGER,
    prime1                          INTEGER,
    prime2                          INTEGER,
    exponent1                       INTEGER,
    exponent2                       INTEGER,
    coefficient                     INTEGER,
    otherPrimeInfos                 OtherPrimeInfos OPTIONAL
}

OtherPrimeInfos ::= SEQUENCE SIZE (1..MAX) OF OtherPrimeInfo

OtherPrimeInfo ::= SEQUENCE {
    prime                           INTEGER,
    exponent                        INTEGER,
    coefficient                     INTEGER
}

-- RFC 8017 A.2.4
DigestInfo ::= SEQUENCE {
    digestAlgorithm                 AlgorithmIdentifier,
    digest                          OCTET STRING
}

-- RFC 5958 2
OneAsymmetricKey ::= SEQUENCE {
    version                         INTEGER { v1(0), v2(1) },
    privateKeyAlgorithm             AlgorithmIdentifier,
    privateKey                      OCTET STRING,
    attributes                      [0] Attributes OPTIONAL,
    ...,
    [[2: publicKey                  [1] BIT STRING OPTIONAL ]],
    ...
}

PrivateKeyInfo ::= OneAsymmetricKey

Attributes ::= SET OF Attribute

Attribute ::= SEQUENCE {
    type                            OBJECT IDENTIFIER,
    values                          SET OF ANY
}

-- RFC 5958 3
EncryptedPrivateKeyInfo ::= SEQUENCE {
    encryptionAlgorithm             AlgorithmIdentifier,
    encryptedData                   OCTET STRING
}

-- RFC 5915 3
ECPrivateKey ::= SEQUENCE {
    version                         INTEGER { ecPrivkeyVer1(1) },
    privateKey                      OCTET STRING,
    parameters                      [0] EXPLICIT ECParameters OPTIONAL,
    publicKey                       [1] EXPLICIT BIT STRING OPTIONAL
}

-- SEC 1 C.2
ECParameters ::= CHOICE {
    namedCurve                      OBJECT IDENTIFIER,
    implicitCurve                   NULL,
    specifiedCurve                  SpecifiedECDomain
}

SpecifiedECDomain ::= SEQUENCE {
    version                         INTEGER { ecdpVer1(1), ecdpVer2(2), ecdpVer3(3) },
    fieldID                         FieldID,
    curve                           Curve,
    base                            OCTET STRING,
    order                           INTEGER,
    cofactor                        INTEGER OPTIONAL,
    hash                            AlgorithmIdentifier OPTIONAL
}

FieldID ::= SEQUENCE {
    fieldType                       OBJECT IDENTIFIER,
    parameters                      ANY DEFINED BY fieldType
}

Curve ::= SEQUENCE {
    a                               OCTET STRING,
    b                               OCTET STRING,
    seed                            BIT STRING OPTIONAL
}

-- RFC 3279 2.2.3
ECDSA-Sig-Value ::= SEQUENCE {
    r                               INTEGER,
    s                               INTEGER
}

-- RFC 3279 2.2.2
Dss-Sig-Value ::= SEQUENCE {
    r                               INTEGER,
    s                               INTEGER
}

-- RFC 3279 2.3.2
Dss-Parms ::= SEQUENCE {
    p                               INTEGER,
    q                               INTEGER,
    g                               INTEGER
}

-- RFC 3279 2.3.3
DomainParameters ::= SEQUENCE {
    p                               INTEGER,
    g                               INTEGER,
    q                               INTEGER,
    j                               INTEGER OPTIONAL,
    validationParms                 ValidationParms OPTIONAL
}

ValidationParms ::= SEQUENCE {
    seed                            BIT STRING,
    pgenCounter                     INTEGER
}

-- PKCS #3 9
DHParameter ::= SEQUENCE {
    prime                           INTEGER,
    base                            INTEGER,
    privateValueLength              INTEGER OPTIONAL
}

END
"
}

fn ldap() -> &'static str {
    "-- Messages of LDAP (RFC 4511 4), laid out from the sections of the standard. Each type that the
-- standard extends has its marker.

LDAP DEFINITIONS IMPLICIT TAGS EXTENSIBILITY IMPLIED ::= BEGIN

-- 4.1.1, where the CHOICE and the range up to maxInt, which sizeLimit and timeLimit have too (4.5.1), have no
-- names of their own
LDAPMessage ::= SEQUENCE {
    messageID                       MessageID,
    protocolOp                      ProtocolOp,
    controls                        [0] Controls OPTIONAL
}

ProtocolOp ::= CHOICE {
    bindRequest                     BindRequest,
    bindResponse                    BindResponse,
    unbindRequest                   UnbindRequest,
    searchRequest                   SearchRequest,
    searchResEntry                  SearchResultEntry,
    searchResDone                   SearchResultDone,
    searchResRef                    SearchResultReference,
    modifyRequest                   ModifyRequest,
    modifyResponse                  ModifyResponse,
    addRequest                      AddRequest,
    addResponse                     AddResponse,
    delRequest                      DelRequest,
    delResponse                     DelResponse,
    modDNRequest                    ModifyDNRequest,
    modDNResponse                   ModifyDNResponse,
    compareRequest                  CompareRequest,
    compareResponse                 CompareResponse,
    abandonRequest                  AbandonRequest,
    extendedReq                     ExtendedRequest,
    extendedResp                    ExtendedResponse,
    ...,
    intermediateResponse            IntermediateResponse
}

MessageID ::= MaxInt

MaxInt ::= INTEGER (0..maxInt)

maxInt INTEGER ::= 2147483647

-- 4.1.2: an OCTET STRING whose octets are UTF-8
LDAPString ::= [UNIVERSAL 4] IMPLICIT UTF8String

-- 4.1.2: digits and periods, in UTF-8
LDAPOID ::= LDAPString

-- 4.1.3
LDAPDN ::= LDAPString

RelativeLDAPDN ::= LDAPString

-- 4.1.4
AttributeDescription ::= LDAPString

-- 4.1.5
AttributeValue ::= OCTET STRING

-- 4.1.6
AttributeValueAssertion ::= SEQUENCE {
    attributeDesc                   AttributeDescription,
    assertionValue                  AssertionValue
}

AssertionValue ::= OCTET STRING

-- 4.1.7, which has a SET OF: clients and servers write the values in an order of their own, since 5.1 doesn't ask
-- for that of DER
AttributeValues ::= [UNIVERSAL 17] IMPLICIT SEQUENCE OF AttributeValue

PartialAttribute ::= SEQUENCE {
    type                            AttributeDescription,
    vals                            AttributeValues
}

Attribute ::= SEQUENCE {
    type                            AttributeDescription,
    vals                            AttributeValues (SIZE (1..MAX))
}

-- 4.1.8
MatchingRuleId ::= LDAPString

-- 4.1.9
LDAPResult ::= SEQUENCE {
    resultCode                      ResultCode,
    matchedDN                       LDAPDN,
    diagnosticMessage               LDAPString,
    referral                        [3] Referral OPTIONAL
}

ResultCode ::= ENUMERATED {
    success(0), operationsError(1), protocolError(2), timeLimitExceeded(3), sizeLimitExceeded(4),
    compareFalse(5), compareTrue(6), authMethodNotSupported(7), strongerAuthRequired(8),
    referral(10), adminLimitExceeded(11), unavailableCriticalExtension(12),
    confidentialityRequired(13), saslBindInProgress(14), noSuchAttribute(16),
    undefinedAttributeType(17), inappropriateMatching(18), constraintViolation(19),
    attributeOrValueExists(20), invalidAttributeSyntax(21), noSuchObject(32), aliasProblem(33),
    invalidDNSyntax(34), aliasDereferencingProblem(36), inappropriateAuthentication(48),
    invalidCredentials(49), insufficientAccessRights(50), busy(51), unavailable(52),
    unwillingToPerform(53), loopDetect(54), namingViolation(64), objectClassViolation(65),
    notAllowedOnNonLeaf(66), notAllowedOnRDN(67), entryAlreadyExists(68),
    objectClassModsProhibited(69), affectsMultipleDSAs(71), other(80),
    ...
}

-- 4.1.10
Referral ::= SEQUENCE SIZE (1..MAX) OF URI

URI ::= LDAPString

-- 4.1.11
Controls ::= SEQUENCE OF Control

Control ::= SEQUENCE {
    controlType                     LDAPOID,
    criticality                     BOOLEAN DEFAULT FALSE,
    controlValue                    OCTET STRING OPTIONAL
}

-- 4.2
BindRequest ::= [APPLICATION 0] SEQUENCE {
    version                         INTEGER (1..127),
    name                            LDAPDN,
    authentication                  AuthenticationChoice
}

AuthenticationChoice ::= CHOICE {
    simple                          [0] OCTET STRING,
    sasl                            [3] SaslCredentials,
    ...
}

SaslCredentials ::= SEQUENCE {
    mechanism                       LDAPString,
    credentials                     OCTET STRING OPTIONAL
}

-- 4.2.2
BindResponse ::= [APPLICATION 1] SEQUENCE {
    resultCode                      ResultCode,
    matchedDN                       LDAPDN,
    diagnosticMessage               LDAPString,
    referral                        [3] Referral OPTIONAL,
    serverSaslCreds                 [7] OCTET STRING OPTIONAL
}

-- 4.3
UnbindRequest ::= [APPLICATION 2] NULL

-- 4.5.1
SearchRequest ::= [APPLICATION 3] SEQUENCE {
    baseObject                      LDAPDN,
    scope                           ENUMERATED {
        baseObject(0), singleLevel(1), wholeSubtree(2), ...
    },
    derefAliases                    ENUMERATED {
        neverDerefAliases(0), derefInSearching(1), derefFindingBaseObj(2), derefAlways(3)
    },
    sizeLimit                       MaxInt,
    timeLimit                       MaxInt,
    typesOnly                       BOOLEAN,
    filter                          Filter,
    attributes                      AttributeSelection
}

AttributeSelection ::= SEQUENCE OF LDAPString

-- 4.5.1.7
Filter ::= CHOICE {
    and                             [0] SET SIZE (1..MAX) OF Filter,
    or                              [1] SET SIZE (1..MAX) OF Filter,
    not                             [2] Filter,
    equalityMatch                   [3] AttributeValueAssertion,
    substrings                      [4] SubstringFilter,
    greaterOrEqual                  [5] AttributeValueAssertion,
    lessOrEqual                     [6] AttributeValueAssertion,
    present                         [7] AttributeDescription,
    approxMatch                     [8] AttributeValueAssertion,
    extensibleMatch                 [9] MatchingRuleAssertion,
    ...
}

SubstringFilter ::= SEQUENCE {
    type                            AttributeDescription,
    substrings                      SEQUENCE SIZE (1..MAX) OF Substring
}

Substring ::= CHOICE {
    initial                         [0] AssertionValue,
    any                             [1] AssertionValue,
    final                           [2] AssertionValue
}

MatchingRuleAssertion ::= SEQUENCE {
    matchingRule                    [1] MatchingRuleId OPTIONAL,
    type                            [2] AttributeDescription OPTIONAL,
    matchValue                      [3] AssertionValue,
    dnAttributes                    [4] BOOLEAN DEFAULT FALSE
}

-- 4.5.2
SearchResultEntry ::= [APPLICATION 4] SEQUENCE {
    objectName                      LDAPDN,
    attributes                      PartialAttributeList
}

PartialAttributeList ::= SEQUENCE OF PartialAttribute

SearchResultReference ::= [APPLICATION 19] SEQUENCE SIZE (1..MAX) OF URI

SearchResultDone ::= [APPLICATION 5] LDAPResult

-- 4.6
ModifyRequest ::= [APPLICATION 6] SEQUENCE {
    object                          LDAPDN,
    changes                         SEQUENCE OF Change
}

Change ::= SEQUENCE {
    operation                       ENUMERATED { add(0), delete(1), replace(2), ... },
    modification                    PartialAttribute
}

ModifyResponse ::= [APPLICATION 7] LDAPResult

-- 4.7
AddRequest ::= [APPLICATION 8] SEQUENCE {
    entry                           LDAPDN,
    attributes                      AttributeList
}

AttributeList ::= SEQUENCE OF Attribute

AddResponse ::= [APPLICATION 9] LDAPResult

-- 4.8
DelRequest ::= [APPLICATION 10] LDAPDN

DelResponse ::= [APPLICATION 11] LDAPResult

-- 4.9
ModifyDNRequest ::= [APPLICATION 12] SEQUENCE {
    entry                           LDAPDN,
    newrdn                          RelativeLDAPDN,
    deleteoldrdn                    BOOLEAN,
    newSuperior                     [0] LDAPDN OPTIONAL
}

ModifyDNResponse ::= [APPLICATION 13] LDAPResult

-- 4.10
CompareRequest ::= [APPLICATION 14] SEQUENCE {
    entry                           LDAPDN,
    ava                             AttributeValueAssertion
}

CompareResponse ::= [APPLICATION 15] LDAPResult

-- 4.11
AbandonRequest ::= [APPLICATION 16] MessageID

-- 4.12
ExtendedRequest ::= [APPLICATION 23] SEQUENCE {
    requestName                     [0] LDAPOID,
    requestValue                    [1] OCTET STRING OPTIONAL
}

ExtendedResponse ::= [APPLICATION 24] SEQUENCE {
    resultCode                      ResultCode,
    matchedDN                       LDAPDN,
    diagnosticMessage               LDAPString,
    referral                        [3] Referral OPTIONAL,
    responseName                    [10] LDAPOID OPTIONAL,
    responseValue                   [11] OCTET STRING OPTIONAL
}

-- 4.13
IntermediateResponse ::= [APPLICATION 25] SEQUENCE {
    responseName                    [0] LDAPOID OPTIONAL,
    responseValue                   [1] OCTET STRING OPTIONAL
}

END
"
}

fn ocsp() -> &'static str {
    "-- Online certificate status (RFC 6960 4), laid out from the sections of the standard.

OCSP DEFINITIONS EXPLICIT TAGS ::= BEGIN

IMPORTS
    AlgorithmIdentifier, Certificate, CertificateSerialNumber, Extensions, Name
        FROM Certificates
    AuthorityInfoAccessSyntax, CRLReason, GeneralName
        FROM CertificateExtensions;

-- 4.1.1
OCSPRequest ::= SEQUENCE {
    tbsRequest                      TBSRequest,
    optionalSignature               [0] Signature OPTIONAL
}

TBSRequest ::= SEQUENCE {
    version                         [0] Version DEFAULT v1,
    requestorName                   [1] GeneralName OPTIONAL,
    requestList                     SEQUENCE OF Request,
    requestExtensions               [2] Extensions OPTIONAL
}

Signature ::= SEQUENCE {
    signatureAlgorithm              AlgorithmIdentifier,
    signature                       BIT STRING,
    certs                           [0] SEQUENCE OF Certificate OPTIONAL
}

Version ::= INTEGER { v1(0) }

Request ::= SEQUENCE {
    reqCert                         CertID,
    singleRequestExtensions         [0] Extensions OPTIONAL
}

CertID ::= SEQUENCE {
    hashAlgorithm                   AlgorithmIdentifier,
    issuerNameHash                  OCTET STRING,
    issuerKeyHash                   OCTET STRING,
    serialNumber                    CertificateSerialNumber
}

-- 4.2.1
OCSPResponse ::= SEQUENCE {
    responseStatus                  OCSPResponseStatus,
    responseBytes                   [0] ResponseBytes OPTIONAL
}

OCSPResponseStatus ::= ENUMERATED {
    successful(0), malformedRequest(1), internalError(2), tryLater(3), sigRequired(5),
    unauthorized(6)
}

ResponseBytes ::= SEQUENCE {
    responseType                    OBJECT IDENTIFIER,
    response                        OCTET STRING
}

BasicOCSPResponse ::= SEQUENCE {
    tbsResponseData                 ResponseData,
    signatureAlgorithm              AlgorithmIdentifier,
    signature                       BIT STRING,
    certs                           [0] SEQUENCE OF Certificate OPTIONAL
}

ResponseData ::= SEQUENCE {
    version                         [0] Version DEFAULT v1,
    responderID                     ResponderID,
    producedAt                      GeneralizedTime,
    responses                       SEQUENCE OF SingleResponse,
    responseExtensions              [1] Extensions OPTIONAL
}

ResponderID ::= CHOICE {
    byName                          [1] Name,
    byKey                           [2] KeyHash
}

KeyHash ::= OCTET STRING

SingleResponse ::= SEQUENCE {
    certID                          CertID,
    certStatus                      CertStatus,
    thisUpdate                      GeneralizedTime,
    nextUpdate                      [0] GeneralizedTime OPTIONAL,
    singleExtensions                [1] Extensions OPTIONAL
}

CertStatus ::= CHOICE {
    good                            [0] IMPLICIT NULL,
    revoked                         [1] IMPLICIT RevokedInfo,
    unknown                         [2] IMPLICIT UnknownInfo
}

RevokedInfo ::= SEQUENCE {
    revocationTime                  GeneralizedTime,
    revocationReason                [0] CRLReason OPTIONAL
}

UnknownInfo ::= NULL

-- 4.4.2
CrlID ::= SEQUENCE {
    crlUrl                          [0] IA5String OPTIONAL,
    crlNum                          [1] INTEGER OPTIONAL,
    crlTime                         [2] GeneralizedTime OPTIONAL
}

-- 4.4.3
AcceptableResponses ::= SEQUENCE OF OBJECT IDENTIFIER

-- 4.4.4
ArchiveCutoff ::= GeneralizedTime

-- 4.4.6
ServiceLocator ::= SEQUENCE {
    issuer                          Name,
    locator                         AuthorityInfoAccessSyntax
}

-- 4.4.7
PreferredSignatureAlgorithms ::= SEQUENCE OF PreferredSignatureAlgorithm

PreferredSignatureAlgorithm ::= SEQUENCE {
    sigIdentifier                   AlgorithmIdentifier,
    certIdentifier                  AlgorithmIdentifier OPTIONAL
}

END
"
}

fn openssl() -> &'static str {
    "-- What OpenSSL writes after a certificate in a block of PEM with the label TRUSTED CERTIFICATE
-- (openssl-x509, \"Trust Settings\"): its X509_CERT_AUX, which no standard has.

OpenSSL DEFINITIONS IMPLICIT TAGS ::= BEGIN

IMPORTS
    AlgorithmIdentifier
        FROM Certificates;

CertificateTrust ::= SEQUENCE {
    trust                           SEQUENCE OF OBJECT IDENTIFIER OPTIONAL,
    reject                          [0] SEQUENCE OF OBJECT IDENTIFIER OPTIONAL,
    alias                           UTF8String OPTIONAL,
    keyid                           OCTET STRING OPTIONAL,
    other                           [1] SEQUENCE OF AlgorithmIdentifier OPTIONAL
}

END
"
}

fn pkcs12() -> &'static str {
    "-- Personal information exchange (PKCS #12, RFC 7292 4), laid out from the sections of the standard.

PKCS12 DEFINITIONS IMPLICIT TAGS ::= BEGIN

IMPORTS
    ContentInfo
        FROM CMS
    DigestInfo, EncryptedPrivateKeyInfo, PrivateKeyInfo
        FROM Keys;

-- 4
PFX ::= SEQUENCE {
    version                         INTEGER { v3(3) },
    authSafe                        ContentInfo,
    macData                         MacData OPTIONAL
}

MacData ::= SEQUENCE {
    mac                             DigestInfo,
    macSalt                         OCTET STRING,
    iterations                      INTEGER DEFAULT 1
}

-- 4.1
AuthenticatedSafe ::= SEQUENCE OF ContentInfo

-- 4.2
SafeContents ::= SEQUENCE OF SafeBag

SafeBag ::= SEQUENCE {
    bagId                           OBJECT IDENTIFIER,
    bagValue                        [0] EXPLICIT ANY DEFINED BY bagId,
    bagAttributes                   SET OF PKCS12Attribute OPTIONAL
}

PKCS12Attribute ::= SEQUENCE {
    attrId                          OBJECT IDENTIFIER,
    attrValues                      SET OF ANY
}

-- 4.2.1
KeyBag ::= PrivateKeyInfo

-- 4.2.2
PKCS8ShroudedKeyBag ::= EncryptedPrivateKeyInfo

-- 4.2.3
CertBag ::= SEQUENCE {
    certId                          OBJECT IDENTIFIER,
    certValue                       [0] EXPLICIT ANY DEFINED BY certId
}

-- 4.2.4
CRLBag ::= SEQUENCE {
    crlId                           OBJECT IDENTIFIER,
    crlValue                        [0] EXPLICIT ANY DEFINED BY crlId
}

-- 4.2.5
SecretBag ::= SEQUENCE {
    secretTypeId                    OBJECT IDENTIFIER,
    secretValue                     [0] EXPLICIT ANY DEFINED BY secretTypeId
}

END
"
}

fn published() -> &'static str {
    "-- The modules of standards by the names under which they are published, for modules that import from
-- them: what is in `modules/` of each, under the name of its module here.

-- RFC 5280 A.1
PKIX1Explicit88 DEFINITIONS EXPLICIT TAGS ::= BEGIN

IMPORTS
    AlgorithmIdentifier, AttributeTypeAndValue, Certificate, CertificateSerialNumber,
    Extension, Extensions, Name, RDNSequence, RelativeDistinguishedName, SubjectPublicKeyInfo,
    TBSCertificate, Time, UniqueIdentifier, Validity, Version
        FROM Certificates
    CertificateList, TBSCertList
        FROM Revocation
    AdministrationDomainName, Attribute, BuiltInDomainDefinedAttribute,
    BuiltInDomainDefinedAttributes, BuiltInStandardAttributes, CountryName, DirectoryString,
    ExtensionAttribute, ExtensionAttributes, ORAddress, OrganizationalUnitName,
    OrganizationalUnitNames, PersonalName, PrivateDomainName, X121Address
        FROM CertificateExtensions;

END

-- RFC 5280 A.2
PKIX1Implicit88 DEFINITIONS EXPLICIT TAGS ::= BEGIN

IMPORTS
    AccessDescription, AdministrationDomainName, AnotherName, Attribute,
    AuthorityInfoAccessSyntax, AuthorityKeyIdentifier, BaseCRLNumber, BaseDistance,
    BasicConstraints, BuiltInDomainDefinedAttribute, BuiltInDomainDefinedAttributes,
    BuiltInStandardAttributes, CPSuri, CRLDistributionPoints, CRLNumber, CRLReason,
    CertPolicyId, CertificateIssuer, CertificatePolicies, CountryName, DirectoryString,
    DisplayText, DistributionPoint, DistributionPointName, EDIPartyName, ExtKeyUsageSyntax,
    ExtensionAttribute, ExtensionAttributes, FreshestCRL, GeneralName, GeneralNames,
    GeneralSubtree, GeneralSubtrees, HoldInstructionCode, InhibitAnyPolicy, InvalidityDate,
    IssuerAltName, IssuingDistributionPoint, KeyIdentifier, KeyPurposeId, KeyUsage,
    NameConstraints, NoticeReference, ORAddress, OrganizationalUnitName,
    OrganizationalUnitNames, PersonalName, PolicyConstraints, PolicyInformation,
    PolicyMappings, PolicyQualifierId, PolicyQualifierInfo, PrivateDomainName,
    PrivateKeyUsagePeriod, ReasonFlags, SkipCerts, SubjectAltName, SubjectDirectoryAttributes,
    SubjectInfoAccessSyntax, SubjectKeyIdentifier, UserNotice, X121Address
        FROM CertificateExtensions;

END

-- RFC 5912 14
PKIX1Explicit-2009 DEFINITIONS EXPLICIT TAGS ::= BEGIN

IMPORTS
    Certificate, CertificateSerialNumber, Name, RDNSequence, RelativeDistinguishedName,
    SubjectPublicKeyInfo, TBSCertificate, Time, UniqueIdentifier, Validity, Version
        FROM Certificates
    CertificateList, TBSCertList
        FROM Revocation;

END

-- RFC 5912 14
PKIX1Implicit-2009 DEFINITIONS EXPLICIT TAGS ::= BEGIN

IMPORTS
    AccessDescription, AuthorityInfoAccessSyntax, AuthorityKeyIdentifier, BaseDistance,
    BasicConstraints, CPSuri, CRLDistributionPoints, CRLNumber, CRLReason, CertPolicyId,
    CertificatePolicies, DisplayText, DistributionPoint, DistributionPointName, EDIPartyName,
    ExtKeyUsageSyntax, GeneralName, GeneralNames, GeneralSubtree, GeneralSubtrees,
    IssuingDistributionPoint, KeyIdentifier, KeyPurposeId, KeyUsage, NameConstraints,
    NoticeReference, PolicyConstraints, PolicyInformation, PolicyMappings, PolicyQualifierInfo,
    PrivateKeyUsagePeriod, ReasonFlags, SkipCerts, SubjectDirectoryAttributes,
    SubjectInfoAccessSyntax, UserNotice
        FROM CertificateExtensions;

END

-- RFC 3281 B
PKIXAttributeCertificate DEFINITIONS EXPLICIT TAGS ::= BEGIN

IMPORTS
    AttCertIssuer, AttCertValidityPeriod, AttCertVersion, AttributeCertificate,
    AttributeCertificateInfo, Holder, IetfAttrSyntax, IssuerSerial, ObjectDigestInfo,
    RoleSyntax, SvceAuthInfo, Target, TargetCert, Targets, V2Form
        FROM AttributeCertificates;

END

-- RFC 5755 B
PKIXAttributeCertificate-2008 DEFINITIONS EXPLICIT TAGS ::= BEGIN

IMPORTS
    AttCertIssuer, AttCertValidityPeriod, AttCertVersion, AttributeCertificate,
    AttributeCertificateInfo, AttributeCertificateInfoV1, AttributeCertificateV1, Holder,
    IetfAttrSyntax, IetfAttrValue, IssuerSerial, ObjectDigestInfo, RoleSyntax, SvceAuthInfo,
    Target, TargetCert, Targets, V2Form
        FROM AttributeCertificates;

END

-- RFC 5912 8
PKIXAttributeCertificate-2009 DEFINITIONS EXPLICIT TAGS ::= BEGIN

IMPORTS
    AttCertIssuer, AttCertValidityPeriod, AttCertVersion, AttributeCertificate,
    AttributeCertificateInfo, Holder, IetfAttrSyntax, IssuerSerial, ObjectDigestInfo,
    RoleSyntax, SvceAuthInfo, Target, TargetCert, Targets, V2Form
        FROM AttributeCertificates;

END

-- RFC 3852 12.1, RFC 5652 12.1
CryptographicMessageSyntax2004 DEFINITIONS EXPLICIT TAGS ::= BEGIN

IMPORTS
    Attribute, AuthAttributes, AuthEnvelopedData, AuthenticatedData, CMSVersion,
    CertificateChoices, CertificateSet, ContentEncryptionAlgorithmIdentifier, ContentInfo,
    ContentType, Countersignature, DigestAlgorithmIdentifier, DigestAlgorithmIdentifiers,
    DigestedData, EncapsulatedContentInfo, EncryptedContent, EncryptedContentInfo,
    EncryptedData, EncryptedKey, EnvelopedData, ExtendedCertificate, ExtendedCertificateInfo,
    IssuerAndSerialNumber, KEKIdentifier, KEKRecipientInfo, KeyAgreeRecipientIdentifier,
    KeyAgreeRecipientInfo, KeyDerivationAlgorithmIdentifier, KeyEncryptionAlgorithmIdentifier,
    KeyTransRecipientInfo, MessageAuthenticationCode, MessageAuthenticationCodeAlgorithm,
    MessageDigest, OriginatorIdentifierOrKey, OriginatorInfo, OriginatorPublicKey,
    OtherCertificateFormat, OtherKeyAttribute, OtherRecipientInfo, OtherRevocationInfoFormat,
    PasswordRecipientInfo, RecipientEncryptedKey, RecipientEncryptedKeys, RecipientIdentifier,
    RecipientInfo, RecipientInfos, RecipientKeyIdentifier, RevocationInfoChoice,
    RevocationInfoChoices, SignatureAlgorithmIdentifier, SignatureValue, SignedAttributes,
    SignedData, SignerIdentifier, SignerInfo, SignerInfos, SigningTime, UnauthAttributes,
    UnprotectedAttributes, UnsignedAttributes, UserKeyingMaterial
        FROM CMS;

END

-- RFC 5911
CryptographicMessageSyntax-2009 DEFINITIONS EXPLICIT TAGS ::= BEGIN

IMPORTS
    AuthAttributes, AuthenticatedData, CMSVersion, CertificateChoices, CertificateSet,
    ContentEncryptionAlgorithmIdentifier, ContentInfo, ContentType, Countersignature,
    DigestAlgorithmIdentifier, DigestedData, EncapsulatedContentInfo, EncryptedContentInfo,
    EncryptedData, EncryptedKey, EnvelopedData, ExtendedCertificate, ExtendedCertificateInfo,
    IssuerAndSerialNumber, KEKIdentifier, KEKRecipientInfo, KeyAgreeRecipientIdentifier,
    KeyAgreeRecipientInfo, KeyDerivationAlgorithmIdentifier, KeyEncryptionAlgorithmIdentifier,
    KeyTransRecipientInfo, MessageAuthenticationCode, MessageAuthenticationCodeAlgorithm,
    MessageDigest, OriginatorIdentifierOrKey, OriginatorInfo, OriginatorPublicKey,
    OtherCertificateFormat, OtherKeyAttribute, OtherRecipientInfo, OtherRevocationInfoFormat,
    PasswordRecipientInfo, RecipientEncryptedKey, RecipientEncryptedKeys, RecipientIdentifier,
    RecipientInfo, RecipientInfos, RecipientKeyIdentifier, RevocationInfoChoice,
    RevocationInfoChoices, SignatureAlgorithmIdentifier, SignatureValue, SignedAttributes,
    SignedData, SignerIdentifier, SignerInfo, SignerInfos, SigningTime, UnauthAttributes,
    UserKeyingMaterial
        FROM CMS;

END

-- RFC 6268
CryptographicMessageSyntax-2010 DEFINITIONS EXPLICIT TAGS ::= BEGIN

IMPORTS
    Attribute, AuthAttributes, AuthEnvelopedData, AuthenticatedData, CMSVersion,
    CertificateChoices, CertificateSet, ContentEncryptionAlgorithmIdentifier, ContentInfo,
    ContentType, Countersignature, DigestAlgorithmIdentifier, DigestAlgorithmIdentifiers,
    DigestedData, EncapsulatedContentInfo, EncryptedContent, EncryptedContentInfo,
    EncryptedData, EncryptedKey, EnvelopedData, ExtendedCertificate, ExtendedCertificateInfo,
    IssuerAndSerialNumber, KEKIdentifier, KEKRecipientInfo, KeyAgreeRecipientIdentifier,
    KeyAgreeRecipientInfo, KeyDerivationAlgorithmIdentifier, KeyEncryptionAlgorithmIdentifier,
    KeyTransRecipientInfo, MessageAuthenticationCode, MessageAuthenticationCodeAlgorithm,
    MessageDigest, OriginatorIdentifierOrKey, OriginatorInfo, OriginatorPublicKey,
    OtherCertificateFormat, OtherKeyAttribute, OtherRecipientInfo, OtherRevocationInfoFormat,
    PasswordRecipientInfo, RecipientEncryptedKey, RecipientEncryptedKeys, RecipientIdentifier,
    RecipientInfo, RecipientInfos, RecipientKeyIdentifier, RevocationInfoChoice,
    RevocationInfoChoices, SignatureAlgorithmIdentifier, SignatureValue, SignedAttributes,
    SignedData, SignerIdentifier, SignerInfo, SignerInfos, SigningTime, UnauthAttributes,
    UnprotectedAttributes, UnsignedAttributes, UserKeyingMaterial
        FROM CMS;

END

-- RFC 5912 4
OCSP-2009 DEFINITIONS EXPLICIT TAGS ::= BEGIN

IMPORTS
    AcceptableResponses, ArchiveCutoff, BasicOCSPResponse, CertID, CertStatus, CrlID, KeyHash,
    OCSPRequest, OCSPResponse, OCSPResponseStatus, Request, ResponderID, ResponseBytes,
    ResponseData, RevokedInfo, ServiceLocator, Signature, SingleResponse, TBSRequest,
    UnknownInfo, Version
        FROM OCSP;

END

-- RFC 6960 B.1
OCSP-2013-88 DEFINITIONS EXPLICIT TAGS ::= BEGIN

IMPORTS
    AcceptableResponses, ArchiveCutoff, BasicOCSPResponse, CertID, CertStatus, CrlID, KeyHash,
    OCSPRequest, OCSPResponse, OCSPResponseStatus, PreferredSignatureAlgorithm,
    PreferredSignatureAlgorithms, Request, ResponderID, ResponseBytes, ResponseData,
    RevokedInfo, ServiceLocator, Signature, SingleResponse, TBSRequest, UnknownInfo, Version
        FROM OCSP;

END

-- RFC 6960 B.2
OCSP-2013-08 DEFINITIONS EXPLICIT TAGS ::= BEGIN

IMPORTS
    AcceptableResponses, ArchiveCutoff, BasicOCSPResponse, CertID, CertStatus, CrlID, KeyHash,
    OCSPRequest, OCSPResponse, OCSPResponseStatus, PreferredSignatureAlgorithm,
    PreferredSignatureAlgorithms, Request, ResponderID, ResponseBytes, ResponseData,
    RevokedInfo, ServiceLocator, Signature, SingleResponse, TBSRequest, UnknownInfo, Version
        FROM OCSP;

END

-- RFC 3161 A
PKIXTSP DEFINITIONS EXPLICIT TAGS ::= BEGIN

IMPORTS
    Accuracy, MessageImprint, PKIFailureInfo, PKIFreeText, PKIStatus, PKIStatusInfo,
    TSAPolicyId, TSTInfo, TimeStampReq, TimeStampResp, TimeStampToken
        FROM TimeStamps;

END

-- RFC 4210 F
PKIXCMP DEFINITIONS EXPLICIT TAGS ::= BEGIN

IMPORTS
    CAKeyUpdAnnContent, CMPCertificate, CRLAnnContent, CertConfirmContent, CertOrEncCert,
    CertRepMessage, CertResponse, CertStatus, CertifiedKeyPair, Challenge, ErrorMsgContent,
    GenMsgContent, GenRepContent, InfoTypeAndValue, KeyRecRepContent, PBMParameter, PKIBody,
    PKIConfirmContent, PKIFailureInfo, PKIFreeText, PKIHeader, PKIMessage, PKIMessages,
    PKIProtection, PKIStatus, PKIStatusInfo, POPODecKeyChallContent, POPODecKeyRespContent,
    PollRepContent, PollReqContent, ProtectedPart, RevAnnContent, RevDetails, RevRepContent,
    RevReqContent
        FROM CMP;

END

-- RFC 5912 10
PKIXCMP-2009 DEFINITIONS EXPLICIT TAGS ::= BEGIN

IMPORTS
    CAKeyUpdAnnContent, CMPCertificate, CRLAnnContent, CertConfirmContent, CertOrEncCert,
    CertRepMessage, CertResponse, CertStatus, CertifiedKeyPair, Challenge, ErrorMsgContent,
    GenMsgContent, GenRepContent, InfoTypeAndValue, KeyRecRepContent, PBMParameter, PKIBody,
    PKIConfirmContent, PKIFailureInfo, PKIFreeText, PKIHeader, PKIMessage, PKIMessages,
    PKIProtection, PKIStatus, PKIStatusInfo, POPODecKeyChallContent, POPODecKeyRespContent,
    PollRepContent, PollReqContent, ProtectedPart, RevAnnContent, RevDetails, RevRepContent,
    RevReqContent
        FROM CMP;

END

-- RFC 4211 B
PKIXCRMF-2005 DEFINITIONS EXPLICIT TAGS ::= BEGIN

IMPORTS
    AttributeTypeAndValue, CertId, CertReqMessages, CertReqMsg, CertRequest, CertTemplate,
    Controls, EncryptedKey, EncryptedValue, OptionalValidity, PKIPublicationInfo, PKMACValue,
    POPOPrivKey, POPOSigningKey, POPOSigningKeyInput, ProofOfPossession, SinglePubInfo,
    SubsequentMessage
        FROM CRMF;

END

-- RFC 5912 11
PKIXCRMF-2009 DEFINITIONS EXPLICIT TAGS ::= BEGIN

IMPORTS
    CertId, CertReqMessages, CertReqMsg, CertRequest, CertTemplate, Controls, EncryptedKey,
    EncryptedValue, OptionalValidity, PKIPublicationInfo, PKMACValue, POPOPrivKey,
    POPOSigningKey, POPOSigningKeyInput, ProofOfPossession, SinglePubInfo, SubsequentMessage
        FROM CRMF;

END

-- RFC 8017 C
PKCS-1 DEFINITIONS EXPLICIT TAGS ::= BEGIN

IMPORTS
    DigestInfo, OtherPrimeInfo, OtherPrimeInfos, RSAPrivateKey, RSAPublicKey
        FROM Keys;

END

-- RFC 5208 A
PKCS-8 DEFINITIONS EXPLICIT TAGS ::= BEGIN

IMPORTS
    EncryptedPrivateKeyInfo, PrivateKeyInfo
        FROM Keys;

END

-- RFC 5958 A
AsymmetricKeyPackageModuleV1 DEFINITIONS EXPLICIT TAGS ::= BEGIN

IMPORTS
    Attributes, EncryptedPrivateKeyInfo, OneAsymmetricKey, PrivateKeyInfo
        FROM Keys;

END

-- RFC 3279 3
PKIX1Algorithms88 DEFINITIONS EXPLICIT TAGS ::= BEGIN

IMPORTS
    Curve, DomainParameters, Dss-Parms, Dss-Sig-Value, ECDSA-Sig-Value, ECParameters, FieldID,
    RSAPublicKey, ValidationParms
        FROM Keys;

END

-- RFC 2986 A
PKCS-10 DEFINITIONS EXPLICIT TAGS ::= BEGIN

IMPORTS
    CertificationRequest, CertificationRequestInfo
        FROM Requests;

END

-- RFC 7292 D
PKCS-12 DEFINITIONS EXPLICIT TAGS ::= BEGIN

IMPORTS
    AuthenticatedSafe, CRLBag, CertBag, KeyBag, MacData, PFX, PKCS12Attribute,
    PKCS8ShroudedKeyBag, SafeBag, SafeContents, SecretBag
        FROM PKCS12;

END

-- RFC 4120 A
KerberosV5Spec2 DEFINITIONS EXPLICIT TAGS ::= BEGIN

IMPORTS
    AD-AND-OR, AD-IF-RELEVANT, AD-KDCIssued, AD-MANDATORY-FOR-KDC, AP-REP, AP-REQ, APOptions,
    AS-REP, AS-REQ, Authenticator, AuthorizationData, Checksum, ETYPE-INFO, ETYPE-INFO-ENTRY,
    ETYPE-INFO2, ETYPE-INFO2-ENTRY, EncAPRepPart, EncASRepPart, EncKDCRepPart, EncKrbCredPart,
    EncKrbPrivPart, EncTGSRepPart, EncTicketPart, EncryptedData, EncryptionKey, HostAddress,
    HostAddresses, Int32, KDC-REP, KDC-REQ, KDC-REQ-BODY, KDCOptions, KRB-CRED, KRB-ERROR,
    KRB-PRIV, KRB-SAFE, KRB-SAFE-BODY, KerberosFlags, KerberosString, KerberosTime,
    KrbCredInfo, LastReq, METHOD-DATA, Microseconds, PA-DATA, PA-ENC-TIMESTAMP, PA-ENC-TS-ENC,
    PrincipalName, Realm, TGS-REP, TGS-REQ, TYPED-DATA, Ticket, TicketFlags, TransitedEncoding,
    UInt32
        FROM Kerberos;

END

-- RFC 4511 B
Lightweight-Directory-Access-Protocol-V3 DEFINITIONS EXPLICIT TAGS ::= BEGIN

IMPORTS
    AbandonRequest, AddRequest, AddResponse, AssertionValue, Attribute, AttributeDescription,
    AttributeList, AttributeSelection, AttributeValue, AttributeValueAssertion,
    AttributeValues, AuthenticationChoice, BindRequest, BindResponse, Change, CompareRequest,
    CompareResponse, Control, Controls, DelRequest, DelResponse, ExtendedRequest,
    ExtendedResponse, Filter, IntermediateResponse, LDAPDN, LDAPMessage, LDAPOID, LDAPResult,
    LDAPString, MatchingRuleAssertion, MatchingRuleId, MaxInt, MessageID, ModifyDNRequest,
    ModifyDNResponse, ModifyRequest, ModifyResponse, PartialAttribute, PartialAttributeList,
    ProtocolOp, Referral, RelativeLDAPDN, ResultCode, SaslCredentials, SearchRequest,
    SearchResultDone, SearchResultEntry, SearchResultReference, Substring, SubstringFilter,
    URI, UnbindRequest
        FROM LDAP;

END

-- RFC 1157 4
RFC1157-SNMP DEFINITIONS EXPLICIT TAGS ::= BEGIN

IMPORTS
    Message, PDU, PDUs, VarBind, VarBindList
        FROM SNMP;

END

-- RFC 3416 3
SNMPv2-PDU DEFINITIONS EXPLICIT TAGS ::= BEGIN

IMPORTS
    BulkPDU, ObjectName, PDU, PDUs, VarBind, VarBindList
        FROM SNMP;

END

-- RFC 3412 6
SNMPv3MessageSyntax DEFINITIONS EXPLICIT TAGS ::= BEGIN

IMPORTS
    HeaderData, SNMPv3Message, ScopedPDU, ScopedPduData
        FROM SNMP;

END

-- RFC 3414 2.4
USMSecurityParametersSyntax DEFINITIONS EXPLICIT TAGS ::= BEGIN

IMPORTS
    UsmSecurityParameters
        FROM SNMP;

END
"
}

fn requests() -> &'static str {
    "-- Certification requests (PKCS #10, RFC 2986 4), laid out from the sections of the standard.

Requests DEFINITIONS IMPLICIT TAGS ::= BEGIN

IMPORTS
    AlgorithmIdentifier, Name, SubjectPublicKeyInfo
        FROM Certificates;

-- 4.2
CertificationRequest ::= SEQUENCE {
    certificationRequestInfo        CertificationRequestInfo,
    signatureAlgorithm              AlgorithmIdentifier,
    signature                       BIT STRING
}

-- 4.1
CertificationRequestInfo ::= SEQUENCE {
    version                         INTEGER { v1(0) },
    subject                         Name,
    subjectPKInfo                   SubjectPublicKeyInfo,
    attributes                      [0] Attributes
}

Attributes ::= SET OF Attribute

Attribute ::= SEQUENCE {
    type                            OBJECT IDENTIFIER,
    values                          SET SIZE (1..MAX) OF ANY
}

END
"
}

fn revocation() -> &'static str {
    "-- Certificate revocation lists (RFC 5280 5.1), laid out from the sections of the standard.

Revocation DEFINITIONS EXPLICIT TAGS ::= BEGIN

IMPORTS
    AlgorithmIdentifier, CertificateSerialNumber, Extensions, Name, Time, Version
        FROM Certificates;

-- 5.1.1
CertificateList ::= SEQUENCE {
    tbsCertList             TBSCertList,
    signatureAlgorithm      AlgorithmIdentifier,
    signatureValue          BIT STRING
}

-- 5.1.2
TBSCertList ::= SEQUENCE {
    version                 Version OPTIONAL,
    signature               AlgorithmIdentifier,
    issuer                  Name,
    thisUpdate              Time,
    nextUpdate              Time OPTIONAL,
    revokedCertificates     SEQUENCE OF RevokedCertificate OPTIONAL,
    crlExtensions           [0] Extensions OPTIONAL
}

-- 5.1.2.6
RevokedCertificate ::= SEQUENCE {
    userCertificate         CertificateSerialNumber,
    revocationDate          Time,
    crlEntryExtensions      Extensions OPTIONAL
}

END
"
}

fn snmp() -> &'static str {
    "-- Messages of SNMP: versions 1 (RFC 1157 4) and 2c (RFC 1901 3) with the operations of RFC 3416 3,
-- version 3 (RFC 3412 6) with the user-based security model (RFC 3414 2.4), laid out from the sections
-- of the standards. A request-id has 32 bits, as RFC 2578 7.1.1 says of Integer32.

SNMP DEFINITIONS IMPLICIT TAGS ::= BEGIN

-- RFC 1157 4, RFC 1901 3
Message ::= SEQUENCE {
    version                         INTEGER { version-1(0), version-2c(1) },
    community                       OCTET STRING,
    data                            PDUs
}

-- RFC 3416 3, RFC 1157 4.1
PDUs ::= CHOICE {
    get-request                     [0] PDU,
    get-next-request                [1] PDU,
    response                        [2] PDU,
    set-request                     [3] PDU,
    trap                            [4] Trap-PDU,
    get-bulk-request                [5] BulkPDU,
    inform-request                  [6] PDU,
    snmpV2-trap                     [7] PDU,
    report                          [8] PDU
}

max-bindings INTEGER ::= 2147483647

-- INTEGER (0..max-bindings) of RFC 3416 3, and the range of components in RFC 3412 6 and RFC 3414 2.4
Unsigned31 ::= INTEGER (0..max-bindings)

PDU ::= SEQUENCE {
    request-id                      INTEGER (-2147483648..2147483647),
    error-status                    INTEGER {
        noError(0), tooBig(1), noSuchName(2), badValue(3), readOnly(4), genErr(5), noAccess(6),
        wrongType(7), wrongLength(8), wrongEncoding(9), wrongValue(10), noCreation(11),
        inconsistentValue(12), resourceUnavailable(13), commitFailed(14), undoFailed(15),
        authorizationError(16), notWritable(17), inconsistentName(18)
    },
    error-index                     Unsigned31,
    variable-bindings               VarBindList
}

BulkPDU ::= SEQUENCE {
    request-id                      INTEGER (-2147483648..2147483647),
    non-repeaters                   Unsigned31,
    max-repetitions                 Unsigned31,
    variable-bindings               VarBindList
}

-- RFC 1157 4.1.6
Trap-PDU ::= SEQUENCE {
    enterprise                      OBJECT IDENTIFIER,
    agent-addr                      NetworkAddress,
    generic-trap                    INTEGER {
        coldStart(0), warmStart(1), linkDown(2), linkUp(3), authenticationFailure(4),
        egpNeighborLoss(5), enterpriseSpecific(6)
    },
    specific-trap                   INTEGER,
    time-stamp                      TimeTicks,
    variable-bindings               VarBindList
}

NetworkAddress ::= CHOICE {
    internet                        IpAddress
}

-- RFC 3416 3
VarBindList ::= SEQUENCE (SIZE (0..max-bindings)) OF VarBind

VarBind ::= SEQUENCE {
    name                            ObjectName,
    value                           VarBindValue
}

VarBindValue ::= CHOICE {
    value                           ObjectSyntax,
    unSpecified                     NULL,
    noSuchObject                    [0] NULL,
    noSuchInstance                  [1] NULL,
    endOfMibView                    [2] NULL
}

-- RFC 2578
ObjectName ::= OBJECT IDENTIFIER

ObjectSyntax ::= CHOICE {
    simple                          SimpleSyntax,
    application-wide                ApplicationSyntax
}

SimpleSyntax ::= CHOICE {
    integer-value                   INTEGER (-2147483648..2147483647),
    string-value                    OCTET STRING (SIZE (0..65535)),
    objectID-value                  OBJECT IDENTIFIER
}

ApplicationSyntax ::= CHOICE {
    ipAddress-value                 IpAddress,
    counter-value                   Counter32,
    timeticks-value                 TimeTicks,
    arbitrary-value                 Opaque,
    big-counter-value               Counter64,
    unsigned-integer-value          Unsigned32
}

IpAddress ::= [APPLICATION 0] OCTET STRING (SIZE (4))

Counter32 ::= [APPLICATION 1] INTEGER (0..4294967295)

Unsigned32 ::= [APPLICATION 2] INTEGER (0..4294967295)

TimeTicks ::= [APPLICATION 3] INTEGER (0..4294967295)

Opaque ::= [APPLICATION 4] OCTET STRING

Counter64 ::= [APPLICATION 6] INTEGER (0..18446744073709551615)

-- RFC 3412 6
SNMPv3Message ::= SEQUENCE {
    msgVersion                      INTEGER { snmpv3(3) } (0..2147483647),
    msgGlobalData                   HeaderData,
    msgSecurityParameters           OCTET STRING,
    msgData                         ScopedPduData
}

HeaderData ::= SEQUENCE {
    msgID                           Unsigned31,
    msgMaxSize                      INTEGER (484..2147483647),
    msgFlags                        OCTET STRING (SIZE (1)),
    msgSecurityModel                INTEGER (1..2147483647)
}

ScopedPduData ::= CHOICE {
    plaintext                       ScopedPDU,
    encryptedPDU                    OCTET STRING
}

ScopedPDU ::= SEQUENCE {
    contextEngineID                 OCTET STRING,
    contextName                     OCTET STRING,
    data                            PDUs
}

-- RFC 3414 2.4
UsmSecurityParameters ::= SEQUENCE {
    msgAuthoritativeEngineID        OCTET STRING,
    msgAuthoritativeEngineBoots     Unsigned31,
    msgAuthoritativeEngineTime      Unsigned31,
    msgUserName                     OCTET STRING (SIZE (0..32)),
    msgAuthenticationParameters     OCTET STRING,
    msgPrivacyParameters            OCTET STRING
}

END
"
}

fn timestamps() -> &'static str {
    "-- Time stamps (RFC 3161 2.4), laid out from the sections of the standard.

TimeStamps DEFINITIONS IMPLICIT TAGS ::= BEGIN

IMPORTS
    AlgorithmIdentifier, Extensions
        FROM Certificates
    GeneralName
        FROM CertificateExtensions
    ContentInfo
        FROM CMS;

-- 2.4.1
TimeStampReq ::= SEQUENCE {
    version                         INTEGER { v1(1) },
    messageImprint                  MessageImprint,
    reqPolicy                       TSAPolicyId OPTIONAL,
    nonce                           INTEGER OPTIONAL,
    certReq                         BOOLEAN DEFAULT FALSE,
    extensions                      [0] Extensions OPTIONAL
}

MessageImprint ::= SEQUENCE {
    hashAlgorithm                   AlgorithmIdentifier,
    hashedMessage                   OCTET STRING
}

TSAPolicyId ::= OBJECT IDENTIFIER

-- 2.4.2
TimeStampResp ::= SEQUENCE {
    status                          PKIStatusInfo,
    timeStampToken                  TimeStampToken OPTIONAL
}

PKIStatusInfo ::= SEQUENCE {
    status                          PKIStatus,
    statusString                    PKIFreeText OPTIONAL,
    failInfo                        PKIFailureInfo OPTIONAL
}

PKIStatus ::= INTEGER {
    granted(0), grantedWithMods(1), rejection(2), waiting(3), revocationWarning(4),
    revocationNotification(5)
}

PKIFreeText ::= SEQUENCE SIZE (1..MAX) OF UTF8String

PKIFailureInfo ::= BIT STRING {
    badAlg(0), badRequest(2), badDataFormat(5), timeNotAvailable(14), unacceptedPolicy(15),
    unacceptedExtension(16), addInfoNotAvailable(17), systemFailure(25)
}

TimeStampToken ::= ContentInfo

TSTInfo ::= SEQUENCE {
    version                         INTEGER { v1(1) },
    policy                          TSAPolicyId,
    messageImprint                  MessageImprint,
    serialNumber                    INTEGER,
    genTime                         GeneralizedTime,
    accuracy                        Accuracy OPTIONAL,
    ordering                        BOOLEAN DEFAULT FALSE,
    nonce                           INTEGER OPTIONAL,
    tsa                             [0] GeneralName OPTIONAL,
    extensions                      [1] Extensions OPTIONAL
}

Accuracy ::= SEQUENCE {
    seconds                         INTEGER OPTIONAL,
    millis                          [0] INTEGER (1..999) OPTIONAL,
    micros                          [1] INTEGER (1..999) OPTIONAL
}

END
"
}

fn contents() -> &'static str {
    "-- Types of what is in open types (`Open`), in OCTET STRINGs (`Octets`) and in BIT STRINGs (`Bits`) beside an
-- identifier: each alternative has the name that modules/identifiers.asn1 has for it. `Universal` has the types
-- of values with universal tags.

Contents DEFINITIONS EXPLICIT TAGS ::= BEGIN

IMPORTS
    Extensions FROM Certificates
    AuthorityInfoAccessSyntax, AuthorityKeyIdentifier, BaseCRLNumber, BasicConstraints,
    CRLDistributionPoints, CRLNumber, CRLReason, CertificateIssuer, CertificatePolicies,
    ExtKeyUsageSyntax, FreshestCRL, HoldInstructionCode, InhibitAnyPolicy, InvalidityDate,
    IssuerAltName, IssuingDistributionPoint, KeyUsage, NameConstraints, PolicyConstraints,
    PolicyMappings, PrivateKeyUsagePeriod, SubjectAltName, SubjectDirectoryAttributes,
    SubjectInfoAccessSyntax, SubjectKeyIdentifier, UserNotice FROM CertificateExtensions
    AuthenticatedData, AuthEnvelopedData, DigestedData, EncryptedData, EnvelopedData, SignedData
    FROM CMS
    BasicOCSPResponse FROM OCSP
    TSTInfo FROM TimeStamps
    Dss-Parms, DomainParameters, ECPrivateKey, RSAPrivateKey, RSAPublicKey FROM Keys;

Contents ::= SEQUENCE {
    universal   Universal,
    open        Open,
    octets      Octets,
    bits        Bits
}

Universal ::= CHOICE {
    boolean             BOOLEAN,
    integer             INTEGER,
    bits                BIT STRING,
    octets              OCTET STRING,
    null                NULL,
    identifier          OBJECT IDENTIFIER,
    utf8String          UTF8String,
    numericString       NumericString,
    printableString     PrintableString,
    teletexString       TeletexString,
    ia5String           IA5String,
    utcTime             UTCTime,
    generalizedTime     GeneralizedTime,
    visibleString       VisibleString,
    universalString     UniversalString,
    bmpString           BMPString
}

Open ::= CHOICE {
    extensionRequest                [0] Extensions,
    id-signedData                   [1] SignedData,
    id-envelopedData                [2] EnvelopedData,
    id-digestedData                 [3] DigestedData,
    id-encryptedData                [4] EncryptedData,
    id-ct-authData                  [5] AuthenticatedData,
    id-ct-authEnvelopedData         [6] AuthEnvelopedData,
    id-qt-unotice                   [7] UserNotice,
    id-dsa                          [8] Dss-Parms,
    dhpublicnumber                  [9] DomainParameters
}

Octets ::= CHOICE {
    subjectDirectoryAttributes      [0] SubjectDirectoryAttributes,
    subjectKeyIdentifier            [1] SubjectKeyIdentifier,
    keyUsage                        [2] KeyUsage,
    privateKeyUsagePeriod           [3] PrivateKeyUsagePeriod,
    subjectAltName                  [4] SubjectAltName,
    issuerAltName                   [5] IssuerAltName,
    basicConstraints                [6] BasicConstraints,
    cRLNumber                       [7] CRLNumber,
    reasonCode                      [8] CRLReason,
    instructionCode                 [9] HoldInstructionCode,
    invalidityDate                  [10] InvalidityDate,
    deltaCRLIndicator               [11] BaseCRLNumber,
    issuingDistributionPoint        [12] IssuingDistributionPoint,
    certificateIssuer               [13] CertificateIssuer,
    nameConstraints                 [14] NameConstraints,
    cRLDistributionPoints           [15] CRLDistributionPoints,
    certificatePolicies             [16] CertificatePolicies,
    policyMappings                  [17] PolicyMappings,
    authorityKeyIdentifier          [18] AuthorityKeyIdentifier,
    policyConstraints               [19] PolicyConstraints,
    extKeyUsage                     [20] ExtKeyUsageSyntax,
    freshestCRL                     [21] FreshestCRL,
    inhibitAnyPolicy                [22] InhibitAnyPolicy,
    authorityInfoAccess             [23] AuthorityInfoAccessSyntax,
    subjectInfoAccess               [24] SubjectInfoAccessSyntax,
    id-pkix-ocsp-basic              [25] BasicOCSPResponse,
    id-ct-TSTInfo                   [26] TSTInfo,
    rsaEncryption                   [27] RSAPrivateKey,
    id-ecPublicKey                  [28] ECPrivateKey
}

Bits ::= CHOICE {
    rsaEncryption                   [0] RSAPublicKey
}

END
"
}
