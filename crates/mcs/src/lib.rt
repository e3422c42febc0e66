// Image files in MCS text (Intel hexadecimal records) to an image's bytes.
#![tactic(auto)]

pub mod reader;
