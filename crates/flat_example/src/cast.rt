use flat_base::{Actor, PairNo, SessionNo};
use flat_setup::{BuiltSetup, SetupBuilder, SetupFault};
use std::alloc::Global;

/// The display's sides, in pixels.
pub(crate) const WIDTH: u32 = 320;

pub(crate) const HEIGHT: u32 = 200;

/// How many entries the display and each client may make.
const DISPLAY_ENTRIES: u32 = 100;

const CLIENT_ENTRIES: u32 = 50;

/// Who there is, and which pairs link them.
#[derive(Clone, Copy)]
pub(crate) struct Cast {
    pub(crate) home: SessionNo,
    pub(crate) app: SessionNo,
    pub(crate) home_pair: PairNo,
    pub(crate) app_pair: PairNo,
}

/// The display shows the home session, and that shows the application.
pub(crate) fn new_cast(alloc: Global) -> Result<(BuiltSetup, Cast), SetupFault> {
    let mut setup = SetupBuilder::new(alloc, WIDTH, HEIGHT, DISPLAY_ENTRIES);
    let home = setup.session(CLIENT_ENTRIES)?;
    let app = setup.session(CLIENT_ENTRIES)?;
    let home_pair = setup.pair(Actor::Display, home)?;
    let app_pair = setup.pair(Actor::Session(home), app)?;
    let cast = Cast {
        home,
        app,
        home_pair,
        app_pair,
    };
    Ok((setup.build()?, cast))
}
