//! The risk desk's page beside a server.

use gx_board::Board;
use gx_button::Secret;
use gx_command_line::Serving;
use gx_control::{ServerControl, ShutdownFlag};
use gx_door::{Dial, Door};
use gx_listen::Companion;
use gx_page::{PageServer, serve_page};
use gx_policy::Policy;
use gx_program::Failure;
use gx_records::{ShowsRecords, ShowsState};
use gx_serve::Announces;
use std::alloc::Global;
use std::marker::PhantomData;
use std::net::{Ipv4Addr, Net, SocketAddr, TcpListener, TcpStream};
use std::random::RandomSource;
use std::sync::Wait;
use std::time::Clock;

/// Where browsers come in.
#[derive(Drop)]
pub(crate) struct PageEntrance {
    listener: TcpListener,
    /// What the page's tokens are made of, which nobody else knows.
    secret: Secret,
    /// Whether there is a journal, which the page says.
    is_journaled: bool,
}

/// The page, as it is served beside a server: what it shows is made of a gate of its own, of this kind.
#[derive(Drop)]
pub(crate) struct RiskPage<G> {
    entrance: PageEntrance,
    shown_from: PhantomData<G>,
}

impl<G> RiskPage<G> {
    /// The page behind this entrance, if there is one.
    pub(crate) fn behind(entrance: Option<PageEntrance>) -> Option<RiskPage<G>> {
        let entrance = entrance?;
        Some(RiskPage {
            entrance,
            shown_from: PhantomData,
        })
    }
}

impl<G: ShowsRecords + ShowsState> Companion for RiskPage<G> {
    fn go_on<T: Drop, D: Door<Pass = T>, R: Wait + Clock + Dial + Announces>(
        self,
        rt: &R,
        alloc: Global,
        door: &D,
        pass: T,
        policy: &Policy,
        control: &ServerControl,
        closing: &ShutdownFlag,
    ) {
        let PageEntrance {
            listener,
            secret,
            is_journaled,
        } = self.entrance;
        let server = PageServer::new(door, policy, secret, is_journaled, control);
        let board: Board<D, G> = Board::new(pass, None);
        serve_page(rt, alloc, &server, board, &listener, closing);
    }
}

/// What the pages of this run make their tokens of, as the system's own source of random bytes gives it.
fn secret<'a>(host: &HostRuntime) -> Result<Secret, Failure<'a>> {
    let mut bytes = [0u8; 32];
    match host.fill_bytes(&mut bytes) {
        Ok(()) => Ok(Secret { bytes }),
        Err(error) => Err(Failure::no_listener(error)),
    }
}

/// Listens on a port of this machine's own address.
pub(crate) fn listen<'a, R: Net<Listener = TcpListener, Stream = TcpStream>>(
    rt: &R,
    port: u16,
) -> Result<TcpListener, Failure<'a>> {
    let address = SocketAddr::from((Ipv4Addr::LOCALHOST, port));
    match TcpListener::bind(rt, address) {
        Ok(listener) => Ok(listener),
        Err(error) => Err(Failure::no_listener(error)),
    }
}

/// Listens for browsers, if the page is to be served.
pub(crate) fn open_page<'a, R: Net<Listener = TcpListener, Stream = TcpStream>>(
    rt: &R,
    host: &HostRuntime,
    serving: &Serving<'a>,
) -> Result<Option<PageEntrance>, Failure<'a>> {
    let Some(port) = serving.status_port else {
        return Ok(None);
    };
    let listener = listen(rt, port)?;
    let secret = secret(host)?;
    Ok(Some(PageEntrance {
        listener,
        secret,
        is_journaled: serving.journal.is_some(),
    }))
}
