//! Laws of addresses, each the contract of a function that does nothing when it runs.
ghost use Rattle.abs_transfer.specs.Addresses.{AddressesLie};

/// Where all that is known is true of a hart, the address of a load or store lies in its range.
pub fn addresses_lie()
    ensures { AddressesLie }
{}
