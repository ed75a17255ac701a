// A post as the lines of an answer tell it.
use crate::post::Post;
use client::Session;
use lease::DhcpLease;
use machine::ClientState;
use octets::span::{put_bytes, put_bytes_at};
use settings::Medium;
use sheet::{Part, Sheet};
use tables::Tables;

// A line's octets come from one slice, so those of settings are told from one array, the hardware address first.
const NAME_AT: usize = 6;

const LIST_AT: usize = NAME_AT + 63;

const EXTRA_AT: usize = LIST_AT + 64;

impl Post {
    // How the post stands, but for its settings.
    pub fn tell(&self, sheet: &mut Sheet<'_>) {
        tell_session(self.client.session, sheet);
        if self.client.session.state.has_lease() {
            tell_lease(&self.client.lease, sheet);
        }
        tell_tables(&self.tables, sheet);
        sheet.write(Part::Generator, &[self.rand.state]);
    }

    // The settings.
    pub fn tell_settings(&self, sheet: &mut Sheet<'_>) {
        let settings = &self.client.settings;
        let mut octets = [0; EXTRA_AT + 255];
        put_bytes(&mut octets, &settings.hardware);
        put_bytes_at(&mut octets, NAME_AT, &settings.name);
        put_bytes_at(&mut octets, LIST_AT, &settings.list);
        put_bytes_at(&mut octets, EXTRA_AT, &settings.extra);
        sheet.write_octets(
            Part::Settings,
            &[
                number_of(settings.medium),
                settings.mtu.into(),
                0,
                6,
                settings.offload.into(),
                NAME_AT as u64,
                settings.name_len as u64,
                settings.listed.into(),
                LIST_AT as u64,
                settings.list_len as u64,
                EXTRA_AT as u64,
                settings.extra_len as u64,
                settings.capped.into(),
                settings.maximum.millis.into(),
                self.client.ignore_naks.into(),
            ],
            &octets,
        );
    }
}

fn tell_session(session: Session, sheet: &mut Sheet<'_>) {
    let id = u64::from(session.transaction_id);
    match session.state {
        ClientState::Init => sheet.write(Part::Init, &[id]),
        ClientState::Discovering(s) => sheet.write(
            Part::Discovering,
            &[id, s.retry_at.millis.into()],
        ),
        ClientState::Requesting(s) => sheet.write(
            Part::Requesting,
            &[
                id,
                s.tries.retry_at.millis.into(),
                s.tries.retry.into(),
                s.server.address.into(),
                s.server.identifier.into(),
                s.requested_ip.into(),
            ],
        ),
        ClientState::Renewing(s) => sheet.write(
            Part::Renewing,
            &[
                id,
                s.renew_at.millis.into(),
                s.rebind_at.millis.into(),
                s.expires_at.millis.into(),
                s.rebinding.into(),
            ],
        ),
    }
}

// A store that is over its limit is told with zeros behind it.
fn tell_lease(lease: &DhcpLease, sheet: &mut Sheet<'_>) {
    let store = &lease.options;
    let [first, second, third] = lease.dns.list;
    sheet.write_padded(
        Part::Lease,
        &[
            lease.server.address.into(),
            lease.server.identifier.into(),
            lease.address.into(),
            lease.prefix.into(),
            lease.router.is_some().into(),
            lease.router.unwrap_or(0).into(),
            lease.dns.count as u64,
            first.into(),
            second.into(),
            third.into(),
            0,
            store.len as u64,
        ],
        &store.bytes,
        store.len.saturating_sub(store.bytes.len()),
    );
}

fn tell_tables(tables: &Tables, sheet: &mut Sheet<'_>) {
    let addresses = &tables.ip_addrs;
    let routes = &tables.routes;
    sheet.write(
        Part::Tables,
        &[
            tables.config_generation.into(),
            addresses.count as u64,
            routes.count as u64,
        ],
    );
    for entry in addresses.entries.iter().take(addresses.count) {
        sheet.write(
            Part::Address,
            &[entry.address.into(), entry.prefix.into(), entry.dhcp.into()],
        );
    }
    for entry in routes.entries.iter().take(routes.count) {
        sheet.write(
            Part::Route,
            &[
                entry.network.into(),
                entry.prefix.into(),
                entry.router.into(),
                entry.dhcp.into(),
            ],
        );
    }
}

// No impl of Medium: the numbers are the records' own, as with medium_of.
fn number_of(medium: Medium) -> u64 {
    match medium {
        Medium::Ethernet => 0,
        Medium::Ip => 1,
        Medium::Ieee802154 => 2,
    }
}
