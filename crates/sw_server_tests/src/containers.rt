mod asking;
mod replies;
mod requests;
