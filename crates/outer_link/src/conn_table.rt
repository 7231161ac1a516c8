ghost use Rattle.std.specs.Prelude.{◌≡◌, ◌<◌, ◌≤◌, ◌^◌, true, false, None, min, length, take, position, replicate, IfOk, OnOk, IfNone, OnErr};
ghost use Rattle.outer_link.specs.Net.{AcceptedAs, TookAs};
ghost use Rattle.outer_link.specs.ServerState.{fresh_server};
ghost use Rattle.outer_link.specs.TableState.{conn_told, NoneWaits, answer_to_take};
ghost use Rattle.outer_link.specs.Told.{fresh_told, is_cut_at, is_open, is_parted, is_waiting, undelivered, after_listen, after_shut, after_part, after_join, after_connect, after_accept, after_put, after_take, after_cut};

use crate::connection::Connection;
use crate::data_server::DataServer;
use crate::end::End;
use crate::lines::Lines;
use crate::moved::Took;
use std::alloc::{AllocError, Global};
use std::marker::Model;

/// The connections of the net in memory, by number, and its data servers. Contracts see what it tells.
#[derive(Drop)]
pub struct ConnTable {
    alloc: Global,
    apps: u8,
    servers: Vec<DataServer>,
    conns: Vec<Connection>,
}

impl Model for ConnTable {
    ghost use Rattle.outer_link.specs.TableState.{TableState, IsSound, told_of};

    ghost Value = { TableState };

    ghost view = { λ t. record { apps = t.apps; told = told_of t.servers.items t.conns.items } };

    ghost invariant = { λ t. IsSound t.apps t.servers.items t.conns.items };
}

impl ConnTable {
    /// A table for so many application servers and data servers. No data server listens.
    pub fn new(alloc: Global, apps: u8, servers: u8) -> Result<ConnTable, AllocError>
        ensures apps { IfOk result (λ t. t.apps ≡ apps) }
        ensures told { IfOk result (λ t. t.told ≡ fresh_told apps servers) }
    {
        Ok(ConnTable {
            alloc,
            apps,
            servers: fresh_servers(alloc, apps, servers)?,
            conns: Vec::new(alloc),
        })
    }

    pub fn apps(&self) -> u8
        ensures { result ≡ self.now.apps }
    {
        self.apps
    }

    pub fn servers(&self) -> usize
        ensures { result ≡ length self.now.told.servers }
    {
        self.servers.len()
    }

    /// How many connections were made.
    pub fn made(&self) -> usize
        ensures { result ≡ length self.now.told.conns }
    {
        self.conns.len()
    }

    pub fn listen(&mut self, server: u8)
        requires { server < length self.old.told.servers }
        ensures { self.new ≡ record self.old { told = after_listen self.old.told server } }
    {
        let server = &mut self.servers[server as usize];
        server.listen();
    }

    pub fn shut(&mut self, server: u8)
        requires { server < length self.old.told.servers }
        ensures { self.new ≡ record self.old { told = after_shut self.old.told server } }
    {
        let made = self.conns.len();
        let server = &mut self.servers[server as usize];
        server.shut(made);
    }

    /// Cuts the pair's connections, and keeps it apart.
    pub fn part(&mut self, app: u8, server: u8)
        requires app { app < self.old.apps }
        requires server { server < length self.old.told.servers }
        ensures next { self.new ≡ record self.old { told = after_part self.old.told app server } }
        ensures apart { is_parted self.new.told app server ≡ true }
    {
        let made = self.conns.len();
        let server = &mut self.servers[server as usize];
        server.part(app, made);
    }

    pub fn join(&mut self, app: u8, server: u8)
        requires app { app < self.old.apps }
        requires server { server < length self.old.told.servers }
        ensures { self.new ≡ record self.old { told = after_join self.old.told app server } }
    {
        let server = &mut self.servers[server as usize];
        server.join(app);
    }

    /// Whether the pair may connect.
    pub fn is_open(&self, app: u8, server: u8) -> bool
        requires app { app < self.now.apps }
        requires server { server < length self.now.told.servers }
        ensures { result ≡ is_open self.now.told app server }
    {
        let server = &self.servers[server as usize];
        server.is_open(app)
    }

    /// Makes a connection, and answers its number. Where no number is left it answers as where there is no memory.
    pub fn connect(&mut self, app: u8, server: u8) -> Result<u32, AllocError>
        ensures number { IfOk result (λ n. n ≡ length self.old.told.conns) }
        ensures ok { OnOk result (self.new
            ≡ record self.old { told = after_connect self.old.told app server }) }
        ensures err { OnErr result (self.new ≡ self.old) }
    {
        let made = self.conns.len();
        let Ok(number) = u32::try_from(made) else {
            return Err(AllocError);
        };
        self.conns.push(Connection {
            app,
            server,
            made,
            is_cut: false,
            is_accepted: false,
            lines: Lines::new(self.alloc),
        })?;
        Ok(number)
    }

    /// Whether the connection is cut.
    pub fn is_cut_at(&self, conn: u32) -> bool
        requires { conn < length self.now.told.conns }
        ensures { result ≡ is_cut_at self.now.told conn }
    {
        is_cut(self.servers.as_slice(), &self.conns[conn as usize])
    }

    /// Puts the bytes at this end. On a connection that is cut they are lost.
    pub fn put(&mut self, conn: u32, end: End, part: &[u8]) -> Result<(), AllocError>
        requires { conn < length self.old.told.conns }
        ensures ok { OnOk result (self.new
            ≡ record self.old { told = after_put self.old.told conn end part.now }) }
        ensures err { OnErr result (self.new ≡ self.old) }
    {
        if self.is_cut_at(conn) {
            return Ok(());
        }
        let conn = &mut self.conns[conn as usize];
        conn.lines.put(end, part)
    }

    /// Moves bytes that were put at the other end into `buf`, as many as fit.
    pub fn take(&mut self, conn: u32, end: End, buf: &mut [u8]) -> Took
        requires known { conn < length self.old.told.conns }
        requires some { 0 < length buf.old }
        ensures answer { result ≡ answer_to_take self.old.told conn end (length buf.old) }
        ensures told { TookAs self.old.told self.new.told conn end buf.new result }
        ensures apps { self.new.apps ≡ self.old.apps }
    {
        if self.is_cut_at(conn) {
            return Took::Ended;
        }
        match self.take_open(conn, end, buf) {
            0 => Took::NotNow,
            count => Took::Bytes(count),
        }
    }

    /// The same, on a connection that isn't cut. It answers how many bytes.
    fn take_open(&mut self, conn: u32, end: End, buf: &mut [u8]) -> usize
        requires known { conn < length self.old.told.conns }
        requires uncut { is_cut_at self.old.told conn ≡ false }
        ensures count { result
            ≡ min (length (undelivered self.old.told conn end)) (length buf.old) }
        ensures bytes { take result buf.new ≡ take result (undelivered self.old.told conn end) }
        ensures next { self.new
            ≡ record self.old { told = after_take self.old.told conn end result } }
    {
        let conn = &mut self.conns[conn as usize];
        conn.lines.take(end, buf)
    }

    /// Cuts the connection.
    pub fn cut(&mut self, conn: u32)
        requires { conn < length self.old.told.conns }
        ensures { self.new ≡ record self.old { told = after_cut self.old.told conn } }
    {
        self.conns[conn as usize].is_cut = true;
    }

    /// Accepts the oldest connection that waits for this data server. Each data server looks at a connection
    /// once only.
    pub fn accept(&mut self, server: u8) -> Option<u32>
        requires { server < length self.old.told.servers }
        ensures told { AcceptedAs self.old.told self.new.told server result }
        ensures none { IfNone result (position (is_waiting server) self.old.told.conns ≡ None) }
        ensures apps { self.new.apps ≡ self.old.apps }
    {
        match self.next_waiting(server) {
            None => {
                let seen = self.conns.len();
                self.see(server, seen);
                None
            }
            Some(number) => {
                self.mark_accepted(number);
                self.see(server, number + 1);
                Some(number as u32)
            }
        }
    }

    /// The number of the oldest connection that waits for this data server.
    fn next_waiting(&self, server: u8) -> Option<usize>
        requires { server < length self.now.told.servers }
        ensures next { result ≡ position (is_waiting server) self.now.told.conns }
        ensures numbers { length self.now.told.conns ≤ 2 ^ 32 }
    {
        let servers = self.servers.as_slice();
        let seen = servers[server as usize].seen();
        match first_waiting(servers, &self.conns[seen..], server) {
            None => None,
            Some(place) => Some(seen + place),
        }
    }

    fn mark_accepted(&mut self, number: usize)
        requires { number < length self.old.told.conns }
        ensures { self.new ≡ record self.old { told = after_accept self.old.told number } }
    {
        self.conns[number].is_accepted = true;
    }

    /// Notes that none of the first `seen` connections waits for this data server.
    fn see(&mut self, server: u8, seen: usize)
        requires server { server < length self.old.told.servers }
        requires within { seen ≤ length self.old.told.conns }
        requires none { NoneWaits server (take seen self.old.told.conns) }
        ensures { self.new ≡ self.old }
    {
        let server = &mut self.servers[server as usize];
        server.see(seen);
    }
}

/// So many data servers that don't listen, apart from no application server.
fn fresh_servers(alloc: Global, apps: u8, count: u8) -> Result<Vec<DataServer>, AllocError>
    ensures { IfOk result (λ v. v.items ≡ replicate count (fresh_server apps)) }
{
    let mut servers = Vec::new(alloc);
    for _server in 0..count {
        servers.push(DataServer::new(alloc, apps)?)?;
    }
    Ok(servers)
}

/// Whether the connection is cut, by itself, with its pair or with its data server.
fn is_cut(servers: &[DataServer], conn: &Connection) -> bool
    ensures { result ≡ (conn_told servers.now conn.now).is_cut }
{
    conn.is_cut
        || servers
            .get(conn.server as usize)
            .is_some_and(|server| server.has_cut(conn.app, conn.made))
}

/// Whether the connection waits to be accepted by this data server.
fn waits(servers: &[DataServer], conn: &Connection, server: u8) -> bool
    ensures { result ≡ is_waiting server (conn_told servers.now conn.now) }
{
    conn.server == server && !(conn.is_accepted || is_cut(servers, conn))
}

/// The place of the first of the connections that waits for this data server.
fn first_waiting(servers: &[DataServer], conns: &[Connection], server: u8) -> Option<usize>
    ensures { result ≡ position (λ conn. is_waiting server (conn_told servers.now conn)) conns.now }
{
    conns.iter().position(|conn| waits(servers, conn, server))
}
