//! Prints from when to when a certificate is valid. It is read from standard input, in DER.
#![tactic(auto)]

use rasn::WholeMessage;
use rasn_pkix::{Certificate, Time};
use std::io::Read;
use std::process::ExitCode;

fn main(rt: HostRuntime) -> ExitCode {
    let alloc = rt.alloc();
    let mut octets = Vec::new(alloc);
    if rt.stdin().read_to_end(&mut octets).is_err() {
        return ExitCode::FAILURE;
    }
    match Certificate::read(alloc, octets.as_slice()) {
        Ok(certificate) => {
            let validity = &certificate.tbs_certificate.validity;
            print_time(&rt, "from", &validity.not_before);
            print_time(&rt, "to", &validity.not_after);
            ExitCode::SUCCESS
        }
        Err(error) => {
            let _ = eprintln!(rt; "{error}");
            ExitCode::FAILURE
        }
    }
}

/// Prints a time.
fn print_time(rt: &HostRuntime, name: &str, time: &Time) {
    let _ = match time {
        Time::UtcTime(time) => println!(rt; "{name} {time}"),
        Time::GeneralTime(time) => println!(rt; "{name} {time}"),
    };
}
