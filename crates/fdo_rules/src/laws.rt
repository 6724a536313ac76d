//! Laws of the rules.

ghost use Rattle.fdo_rules.specs.Laws.{SidesDiffer, DeviceWaits, ServersWait};
ghost use Rattle.fdo_rules.specs.Refusing.{OwnerRefuses};
ghost use Rattle.fdo_rules.specs.Staying.{CredentialStays};

/// No initialization vector of an owner is one of a device.
pub fn sides_differ()
    ensures { SidesDiffer }
{}

/// A device writes nothing before DI.Done and the owner's last TO2.OwnerServiceInfo.
pub fn device_waits()
    ensures { DeviceWaits }
{}

/// An owner writes nothing at TO2.HelloDevice, TO2.GetOVNextEntry and TO2.DeviceServiceInfo, nor a factory at DI.AppStart.
pub fn servers_wait()
    ensures { ServersWait }
{}

/// A message that an owner refuses, and an error of the other end, end the session that the message names and change
/// nothing else, whatever the random source, the signer and the disk answer.
pub fn owner_refuses()
    ensures { OwnerRefuses }
{}

/// No message of DI, TO1 or TO2 changes a device's credential but the last of DI and the owner's ServiceInfo, behind which
/// it stands.
pub fn credential_stays()
    ensures { CredentialStays }
{}
