mod asking;
mod replicas;
mod replies;
mod requests;
