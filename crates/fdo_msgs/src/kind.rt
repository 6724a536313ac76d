//! The types of messages by their numbers (FIDO Device Onboard 1.1, sections 5.2 to 5.5).

/// DI.AppStart (section 5.2.1).
pub const APP_START: u8 = 10;

/// DI.SetCredentials (section 5.2.2).
pub const SET_CREDENTIALS: u8 = 11;

/// DI.SetHMAC (section 5.2.3).
pub const SET_HMAC: u8 = 12;

/// DI.Done (section 5.2.4).
pub const DI_DONE: u8 = 13;

/// TO0.Hello (section 5.3.1).
pub const HELLO: u8 = 20;

/// TO0.HelloAck (section 5.3.2).
pub const HELLO_ACK: u8 = 21;

/// TO0.OwnerSign (section 5.3.3).
pub const OWNER_SIGN: u8 = 22;

/// TO0.AcceptOwner (section 5.3.4).
pub const ACCEPT_OWNER: u8 = 23;

/// TO1.HelloRV (section 5.4.1).
pub const HELLO_RV: u8 = 30;

/// TO1.HelloRVAck (section 5.4.2).
pub const HELLO_RV_ACK: u8 = 31;

/// TO1.ProveToRV (section 5.4.3).
pub const PROVE_TO_RV: u8 = 32;

/// TO1.RVRedirect (section 5.4.4).
pub const RV_REDIRECT: u8 = 33;

/// TO2.HelloDevice (section 5.5.2).
pub const HELLO_DEVICE: u8 = 60;

/// TO2.ProveOVHdr (section 5.5.3).
pub const PROVE_OV_HDR: u8 = 61;

/// TO2.GetOVNextEntry (section 5.5.4).
pub const GET_OV_NEXT_ENTRY: u8 = 62;

/// TO2.OVNextEntry (section 5.5.5).
pub const OV_NEXT_ENTRY: u8 = 63;

/// TO2.ProveDevice (section 5.5.6).
pub const PROVE_DEVICE: u8 = 64;

/// TO2.SetupDevice (section 5.5.7).
pub const SETUP_DEVICE: u8 = 65;

/// TO2.DeviceServiceInfoReady (section 5.5.8).
pub const DEVICE_READY: u8 = 66;

/// TO2.OwnerServiceInfoReady (section 5.5.9).
pub const OWNER_READY: u8 = 67;

/// TO2.DeviceServiceInfo (section 5.5.10).
pub const DEVICE_INFO: u8 = 68;

/// TO2.OwnerServiceInfo (section 5.5.11).
pub const OWNER_INFO: u8 = 69;

/// TO2.Done (section 5.5.12).
pub const DONE: u8 = 70;

/// TO2.Done2 (section 5.5.13).
pub const DONE2: u8 = 71;

/// An error (section 5.1).
pub const ERROR: u8 = 255;
