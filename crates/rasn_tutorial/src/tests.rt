//! Tests.
use crate::Account;
use rasn::der;
use rasn::types::{Integer, ObjectIdentifier};
use std::alloc::{AllocError, Global};
use std::process::Abort;

// id 7, name "Ann", active left out, quota 1000, no email, role 2.5.4.3 (X.690 8.9).
#[test]
fn an_account_is_read_and_written_back(rt: HostRuntime) {
    let alloc = rt.alloc();
    const ANN: &[u8] = &[
        0x30, 0x11, 0x02, 0x01, 0x07, 0x0C, 0x03, 0x41, 0x6E, 0x6E, 0x02, 0x02, 0x03, 0xE8, 0x06,
        0x03, 0x55, 0x04, 0x03,
    ];
    let Ok(account) = der::decode::<Account>(alloc, ANN) else {
        rt.abort()
    };
    assert!(rt; account.active && account.email.is_none() && account.quota == 1000);
    let Ok(octets) = der::encode(alloc, &account) else {
        rt.abort()
    };
    assert!(rt; octets.as_slice() == ANN);
}

// An account like the one above.
fn made(alloc: Global, role: ObjectIdentifier) -> Result<Account, AllocError> {
    Ok(Account {
        id: Integer::from_i128(alloc, 7)?,
        name: String::from_str(alloc, "Ann")?,
        active: true,
        quota: 1000,
        email: None,
        role,
    })
}

#[test]
fn an_account_is_made_and_written(rt: HostRuntime) {
    let alloc = rt.alloc();
    let Ok(Some(role)) = ObjectIdentifier::from_arcs(alloc, &[2, 5, 4, 3]) else {
        rt.abort()
    };
    let Ok(account) = made(alloc, role) else {
        rt.abort()
    };
    let Ok(octets) = der::encode(alloc, &account) else {
        rt.abort()
    };
    assert!(rt; octets.len() == 19);
}
