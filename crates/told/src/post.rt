// A post, and what records set of it. It holds no post::Post: records set its parts one by one, and each would be reached through
// one name more.
use crate::made;
use client::Client;
use clock::{Duration, Instant, Rand};
use sheet::{Malformed, Part, Record, Value};
use tables::Tables;

#[derive(Clone, Copy, Debug)]
pub struct Post {
    pub client: Client,
    pub tables: Tables,
    pub rand: Rand,
    pub now: Instant,
    // How many entries of each table are set: the next one goes behind them. The tables' own counts are what a line says they are.
    addresses: usize,
    routes: usize,
}

impl Post {
    // All zero, but for moment and generator.
    pub fn new(now: Instant, rand: Rand) -> Post {
        let client = Client::zero();
        let tables = Tables::new();
        Post {
            client,
            tables,
            rand,
            now,
            addresses: 0,
            routes: 0,
        }
    }

    // Sets what a record tells.
    pub fn set(&mut self, part: Part, record: &Record<'_>) -> Result<(), Malformed> {
        match part {
            Part::Start => *self = made::start(record),
            Part::Settings => {
                self.client.settings = made::settings(record)?;
                self.client.ignore_naks = made::ignores_naks(record);
            }
            Part::Init => self.client.session = made::init(record),
            Part::Discovering => self.client.session = made::discovering(record),
            Part::Requesting => self.client.session = made::requesting(record),
            Part::Renewing => self.client.session = made::renewing(record),
            Part::Lease => self.client.lease = made::lease(record),
            Part::Tables => {
                self.tables = made::tables(record);
                self.addresses = 0;
                self.routes = 0;
            }
            Part::Address => put(
                &mut self.tables.ip_addrs.entries,
                &mut self.addresses,
                made::address(record),
            )?,
            Part::Route => put(
                &mut self.tables.routes.entries,
                &mut self.routes,
                made::route(record),
            )?,
            Part::Generator => self.rand = made::generator(record),
        }
        Ok(())
    }

    // Lets a step pass.
    pub fn pass(&mut self, step: Value) {
        self.now = self.now.add(Duration { millis: step.to() });
    }

    // What a call leaves. Its tables' entries are set, as many as lines tell.
    pub fn leave(&mut self, client: Client, tables: Tables) {
        self.client = client;
        self.tables = tables;
        self.addresses = tables.ip_addrs.count.min(tables.ip_addrs.entries.len());
        self.routes = tables.routes.count.min(tables.routes.entries.len());
    }
}

// Puts an entry behind those that are set. By hand: the arrays are the tables' own, with a count as document 01 has them.
fn put<E: Copy>(entries: &mut [E], set: &mut usize, entry: E) -> Result<(), Malformed> {
    let Some(place) = entries.get_mut(*set) else {
        return Err(Malformed::NoRoom);
    };
    *place = entry;
    *set += 1;
    Ok(())
}
