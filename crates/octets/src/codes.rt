// Codes of the options that are written and read here, and values of option 53, the message type (RFC 2132), by their
// names in wire/dhcpv4.rs. Their definitions: specs/Codes.antt.
// Octets, and no enum: a reply may hold any octet in their place, and who builds a message may give it any type.

// One octet of padding.
pub const OPT_PAD: u8 = 0;

pub const OPT_SUBNET_MASK: u8 = 1;

pub const OPT_ROUTER: u8 = 3;

pub const OPT_DOMAIN_NAME_SERVER: u8 = 6;

pub const OPT_HOST_NAME: u8 = 12;

pub const OPT_REQUESTED_IP: u8 = 50;

pub const OPT_IP_LEASE_TIME: u8 = 51;

pub const OPT_DHCP_MESSAGE_TYPE: u8 = 53;

pub const OPT_SERVER_IDENTIFIER: u8 = 54;

pub const OPT_PARAMETER_REQUEST_LIST: u8 = 55;

pub const OPT_MAX_DHCP_MESSAGE_SIZE: u8 = 57;

// T1 and T2.
pub const OPT_RENEWAL_TIME_VALUE: u8 = 58;

pub const OPT_REBINDING_TIME_VALUE: u8 = 59;

pub const OPT_CLIENT_ID: u8 = 61;

// The end mark, behind the last option.
pub const OPT_END: u8 = 255;

// Message types.
pub const DISCOVER: u8 = 1;

pub const OFFER: u8 = 2;

pub const REQUEST: u8 = 3;

pub const ACK: u8 = 5;

pub const NAK: u8 = 6;
