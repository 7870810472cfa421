//! What may be asked for, by its path and its method.

ghost use Rattle.std.specs.Prelude.{◌≡◌};
ghost use Rattle.gx_http.specs.Routes.{method_of, method_text, route_at, route_of};

use crate::request::RequestFault;

/// How something is asked for.
#[derive(Clone, Copy, Debug, PartialEq, Eq)]
pub enum Method {
    /// It is read, and nothing changes.
    Get,
    /// It may change something.
    Post,
}

/// What may be asked for.
#[derive(Clone, Copy, PartialEq, Eq)]
pub enum Route {
    /// The page, at `/`.
    Page,
    /// Its script, at `/page.js`.
    Script,
    /// Its style sheet, at `/page.css`.
    Style,
    /// What the page shows, as JSON, at `/state.json`.
    State,
    /// The figures, as a Prometheus server reads them, at `/metrics`.
    Metrics,
    /// Whether the gate takes orders, at `/healthz`.
    Health,
    /// A kill of an account, at `/kill`.
    Kill,
}

impl Method {
    /// The method's name in a request.
    pub fn text(self) -> &'static [u8]
        ensures { result.now ≡ method_text self }
    {
        match self {
            Method::Get => b"GET",
            Method::Post => b"POST",
        }
    }
}

impl Route {
    /// What is asked for by this path.
    fn at(path: &[u8]) -> Option<Route>
        ensures { result ≡ route_at path.now }
    {
        if path == b"/".as_slice() {
            Some(Route::Page)
        } else if path == b"/page.js".as_slice() {
            Some(Route::Script)
        } else if path == b"/page.css".as_slice() {
            Some(Route::Style)
        } else if path == b"/state.json".as_slice() {
            Some(Route::State)
        } else if path == b"/metrics".as_slice() {
            Some(Route::Metrics)
        } else if path == b"/healthz".as_slice() {
            Some(Route::Health)
        } else if path == b"/kill".as_slice() {
            Some(Route::Kill)
        } else {
            None
        }
    }

    /// The method by which it is asked for.
    fn method(self) -> Method
        ensures { result ≡ method_of self }
    {
        match self {
            Route::Kill => Method::Post,
            _ => Method::Get,
        }
    }
}

/// What a request of this method and this path asks for.
pub(crate) fn routed(method: &[u8], path: &[u8]) -> Result<Route, RequestFault>
    ensures { result ≡ route_of method.now path.now }
{
    let Some(route) = Route::at(path) else {
        return Err(RequestFault::NotFound);
    };
    if method != route.method().text() {
        return Err(RequestFault::MethodNotAllowed(route.method()));
    }
    Ok(route)
}
