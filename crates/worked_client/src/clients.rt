// Tables and a reply that the examples begin with.
use made::ack;
use tables::Tables;

// Tables with one address put in by hand, 10.0.0.7/24.
pub fn one_by_hand() -> Tables {
    Tables::new().add_address(0x0a000007, 24).tables
}

// With the end mark at 255.
pub fn plain_ack() -> [u8; 600] {
    ack(&[255])
}
